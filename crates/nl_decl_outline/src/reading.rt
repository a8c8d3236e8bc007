//! The reading of declarations, token by token.
ghost use Rattle.std.specs.Prelude.{◌≡◌, ◌<◌, ◌+◌, [], IfOk, IfErr, IsOk, length};
ghost use Rattle.nl_fixed.specs.Nouns.{Bytes, Names};
ghost use Rattle.nl_scan.specs.Texts.{LiesIn};
ghost use Rattle.nl_scan.specs.Tokens.{AreInOrder};
ghost use Rattle.nl_parse_grammar.specs.Texts.{lexeme_of, lexemes_of};
ghost use Rattle.nl_decl_outline.specs.Declarations.{AreDeclarations, is_end};
ghost use Rattle.nl_decl_outline.specs.Outline.{IsRefused};
ghost use Rattle.nl_decl_outline.specs.inner.Owners.{Knows};
ghost use Rattle.nl_decl_outline.specs.inner.Reading.{and_done, begin_one, begun_by, end_breed, end_list, feed_in, head, list_more, open_list, takes_name, title};
ghost use Rattle.nl_decl_outline.specs.inner.Steps.{GoesOn, IsKept, MayTake, Reaches, counted, go_on_with};

use crate::declaration::{Declaration, Sort};
use crate::mode::{Mode, Subject};
use crate::owners::Owners;
use crate::refusal::OutlineRefusal;
use nl_fixed::{Names, NoMemory, Str};
use nl_scan::{Lexeme, Token, bytes_of, word_of};
use std::alloc::Global;

// Whether a token is the word that ends a body.
fn is_end(text: &[u8], token: &Token) -> bool
    requires { LiesIn text.now token.now.span }
    ensures { result ≡ is_end (lexeme_of text.now token.now) }
{
    match token.lexeme {
        Lexeme::Word => bytes_of(text, token).eq_ignore_ascii_case(b"end"),
        _ => false,
    }
}

// What follows the word that begins a declaration.
fn begun(owners: &Owners, word: &[u8]) -> Option<Mode>
    ensures { (breeds : Names) → Knows breeds owners.now → result ≡ begun_by breeds word.now }
{
    if word == b"globals".as_slice() {
        Some(Mode::Awaiting(Subject::Globals))
    } else if word == b"breed".as_slice() {
        Some(Mode::Awaiting(Subject::Breed(Sort::Turtles)))
    } else if word == b"directed-link-breed".as_slice() {
        Some(Mode::Awaiting(Subject::Breed(Sort::Directed)))
    } else if word == b"undirected-link-breed".as_slice() {
        Some(Mode::Awaiting(Subject::Breed(Sort::Undirected)))
    } else if word == b"to".as_slice() {
        Some(Mode::Titling(false))
    } else if word == b"to-report".as_slice() {
        Some(Mode::Titling(true))
    } else {
        owners
            .owner(word)
            .map(|owner| Mode::Awaiting(Subject::Own(owner)))
    }
}

// Whether there may be a name behind so many.
fn takes_name(subject: &Subject, names: usize) -> bool
    ensures { result ≡ takes_name subject.now names }
{
    match subject {
        Subject::Breed(_) => names < 2,
        _ => true,
    }
}

// What follows the token behind the word that announces a list.
fn open_list(alloc: Global, subject: Subject, token: &Token) -> Option<Mode>
    ensures { (text : Bytes) → GoesOn (λ done. open_list done subject (lexeme_of text token.now)) result }
{
    match token.lexeme {
        Lexeme::Open => Some(Mode::Listing(subject, Names::empty(alloc))),
        _ => None,
    }
}

// What follows the token in the place of a procedure's name.
fn title(
    alloc: Global,
    reporter: bool,
    text: &[u8],
    token: &Token,
) -> Result<Option<Mode>, NoMemory>
    requires { LiesIn text.now token.now.span }
    ensures { IfOk result (GoesOn (λ done. title done reporter (lexeme_of text.now token.now))) }
{
    match token.lexeme {
        Lexeme::Word => {
            let name = word_of(alloc, text, token)?;
            Ok(Some(Mode::Heading(reporter, name)))
        }
        _ => Ok(None),
    }
}

/// A procedure of which so many tokens of the body are read.
#[derive(Drop)]
pub struct Body {
    reporter: bool,
    name: Str,
    inputs: Option<Names>,
    tokens: usize,
}

/// The declarations that are read so far.
#[derive(Drop)]
pub struct Reader {
    done: Vec<Declaration>,
    // The breeds among them.
    owners: Owners,
}

impl Reader {
    fn new(alloc: Global) -> Reader
        ensures none { result.done.items ≡ [] }
        ensures kept { IsKept result }
    {
        Reader {
            done: Vec::new(alloc),
            owners: Owners::none(alloc),
        }
    }

    // Ends a declaration.
    fn finish(&mut self, alloc: Global, declaration: Declaration) -> Result<Option<Mode>, NoMemory>
        requires { IsKept self.old }
        ensures { IfOk result (Reaches (and_done self.old.done.items declaration) 0 self.new) }
    {
        self.owners.note(alloc, &declaration)?;
        self.done.push(declaration)?;
        Ok(Some(Mode::Between))
    }

    // Ends a breed, which has two names.
    fn end_breed(
        &mut self,
        alloc: Global,
        sort: Sort,
        names: &[Str],
    ) -> Result<Option<Mode>, NoMemory>
        requires { IsKept self.old }
        ensures { IfOk result (Reaches
            (end_breed self.old.done.items names.now (Declaration.Breed sort))
            0 self.new) }
    {
        let [plural, singular] = names else {
            return Ok(None);
        };
        let plural = plural.copy(alloc)?;
        let singular = singular.copy(alloc)?;
        self.finish(alloc, Declaration::Breed(sort, plural, singular))
    }

    // Ends a list of names.
    fn end_list(
        &mut self,
        alloc: Global,
        subject: Subject,
        names: Names,
    ) -> Result<Option<Mode>, NoMemory>
        requires { IsKept self.old }
        ensures { IfOk result (Reaches (end_list self.old.done.items subject names) 0 self.new) }
    {
        match subject {
            Subject::Globals => self.finish(alloc, Declaration::Globals(names)),
            Subject::Own(owner) => self.finish(alloc, Declaration::Own(owner, names)),
            Subject::Breed(sort) => self.end_breed(alloc, sort, names.as_slice()),
            Subject::Inputs(reporter, name) => {
                Ok(Some(Mode::Inside(reporter, name, Some(names), 0)))
            }
        }
    }

    // What follows a token in a list of names.
    fn list(
        &mut self,
        alloc: Global,
        subject: Subject,
        names: Names,
        text: &[u8],
        token: &Token,
    ) -> Result<Option<Mode>, NoMemory>
        requires ready { MayTake self.old text.now token.now }
        ensures { IfOk result (Reaches
            (list_more self.old.done.items subject names (lexeme_of text.now token.now))
            0 self.new) }
    {
        match token.lexeme {
            Lexeme::Word => {
                if !takes_name(&subject, names.as_slice().len()) {
                    return Ok(None);
                }
                let mut names = names;
                let name = word_of(alloc, text, token)?;
                names.push(alloc, name)?;
                Ok(Some(Mode::Listing(subject, names)))
            }
            Lexeme::Close => self.end_list(alloc, subject, names),
            _ => Ok(None),
        }
    }

    // What follows the token with which a declaration is to begin.
    fn begin(&self, alloc: Global, text: &[u8], token: &Token) -> Result<Option<Mode>, NoMemory>
        requires ready { MayTake self.now text.now token.now }
        ensures { IfOk result (Reaches
            (begin_one self.now.done.items (lexeme_of text.now token.now))
            0 self.now) }
    {
        match token.lexeme {
            Lexeme::Word => {
                let word = word_of(alloc, text, token)?;
                Ok(begun(&self.owners, word.as_bytes()))
            }
            _ => Ok(None),
        }
    }

    // What follows a token of a body, or the word that ends it.
    fn go_on(
        &mut self,
        alloc: Global,
        body: Body,
        text: &[u8],
        token: &Token,
    ) -> Result<Option<Mode>, NoMemory>
        requires ready { MayTake self.old text.now token.now }
        requires room { body.tokens < usize.MAX }
        ensures { IfOk result (Reaches
            (go_on_with self.old.done.items body (lexeme_of text.now token.now))
            (body.tokens + 1) self.new) }
    {
        let Body {
            reporter,
            name,
            inputs,
            tokens,
        } = body;
        if is_end(text, token) {
            self.finish(
                alloc,
                Declaration::Procedure(reporter, name, inputs, tokens),
            )
        } else {
            Ok(Some(Mode::Inside(reporter, name, inputs, tokens + 1)))
        }
    }

    // What follows the token behind a procedure's name.
    fn head(
        &mut self,
        alloc: Global,
        reporter: bool,
        name: Str,
        text: &[u8],
        token: &Token,
    ) -> Result<Option<Mode>, NoMemory>
        requires ready { MayTake self.old text.now token.now }
        ensures { IfOk result (Reaches
            (head self.old.done.items reporter name (lexeme_of text.now token.now))
            1 self.new) }
    {
        match token.lexeme {
            Lexeme::Open => Ok(Some(Mode::Listing(
                Subject::Inputs(reporter, name),
                Names::empty(alloc),
            ))),
            _ => {
                let body = Body {
                    reporter,
                    name,
                    inputs: None,
                    tokens: 0,
                };
                self.go_on(alloc, body, text, token)
            }
        }
    }

    // What follows the next token, where there may be one.
    fn feed(
        &mut self,
        alloc: Global,
        mode: Mode,
        text: &[u8],
        token: &Token,
    ) -> Result<Option<Mode>, NoMemory>
        requires ready { MayTake self.old text.now token.now }
        requires room { counted mode < usize.MAX }
        ensures { IfOk result (Reaches
            (feed_in self.old.done.items mode (lexeme_of text.now token.now))
            (counted mode + 1) self.new) }
    {
        match mode {
            Mode::Between => self.begin(alloc, text, token),
            Mode::Awaiting(subject) => Ok(open_list(alloc, subject, token)),
            Mode::Listing(subject, names) => self.list(alloc, subject, names, text, token),
            Mode::Titling(reporter) => title(alloc, reporter, text, token),
            Mode::Heading(reporter, name) => self.head(alloc, reporter, name, text, token),
            Mode::Inside(reporter, name, inputs, tokens) => {
                let body = Body {
                    reporter,
                    name,
                    inputs,
                    tokens,
                };
                self.go_on(alloc, body, text, token)
            }
        }
    }
}

/// The declarations that the tokens of a text are, or the index of the first token with which they begin none.
///
/// Which declarations there are is that of the NetLogo User Manual ("Procedures", "Variables", "Breeds"). Words are compared
/// without their case, and names are kept in lower case. Where the text ends within a declaration, the index is the number of
/// tokens.
pub fn outline(
    alloc: Global,
    text: &[u8],
    tokens: &[Token],
) -> Result<Vec<Declaration>, OutlineRefusal>
    requires { AreInOrder 0 (length text.now) tokens.now }
    ensures ok { IfOk result (λ done. AreDeclarations (lexemes_of text.now tokens.now) done.items) }
    ensures bad { IfErr result (IsRefused (lexemes_of text.now tokens.now)) }
    ensures none { tokens.now ≡ [] → IsOk result }
{
    let mut reader = Reader::new(alloc);
    let mut mode = Mode::Between;
    for index in 0..tokens.len() {
        match reader.feed(alloc, mode, text, &tokens[index])? {
            Some(next) => mode = next,
            None => return Err(OutlineRefusal::BadToken(index)),
        }
    }
    match mode {
        Mode::Between => Ok(reader.done),
        _ => Err(OutlineRefusal::BadToken(tokens.len())),
    }
}
