//! Tokens of arrow blocks: their heads, where their content begins, and what closes them.
ghost use Rattle.std.specs.Prelude.{◌≡◌, ◌∷◌, [], not};
ghost use Rattle.nl_tree.specs.Tree.{none};
ghost use Rattle.nl_tree.specs.Tokens.{word};
ghost use Rattle.nl_tree.specs.Vocabulary.{among};
ghost use Rattle.nl_parse_grammar.specs.Machine.{begin_content, feed_head_name, feed_lone_name, feed_heading, feed_heading_commands, feed_heading_reporter, feed_in_head, feed_behind, feed_no_head, feed_arrow_reporter, feed_begin, feed_stating, InNoHead, InArrowCommands};
ghost use Rattle.nl_parse_reading.specs.inner.Reading.{made_over};
ghost use Rattle.nl_parse_reading.specs.inner.View.{class_of, mark_of};
ghost use Rattle.nl_parse_stack.specs.inner.State.{names_of};
ghost use Rattle.nl_parse_stack.specs.inner.Steps.{Follows, Reaches};
ghost use Rattle.nl_parse.specs.inner.Apart.{feed_no_names, is_arrow, starts, states};

use crate::beginning::{add_name, feed_begin};
use crate::stating::feed_stating;
use nl_fixed::{Names, Span, Str};
use nl_parse_reading::frames::{Frame, Mode};
use nl_parse_reading::known_names::KnownNames;
use nl_parse_reading::marks::{Class, Head, Mark};
use nl_parse_reading::parts::{Grouped, Grown};
use nl_parse_stack::reader::{Reader, Refusal, let_go, refuse};
use nl_tree::{Content, Label};

/// A token right behind the bracket of an arrow block.
pub(crate) fn feed_heading(
    reader: &mut Reader,
    content: Content,
    limit: u64,
    bracket: Span,
    mark: Mark,
) -> Result<(), Refusal>
    ensures { Follows result reader.old reader.new
        (λ e K. feed_heading content limit bracket e K (mark_of mark)) }
{
    match content {
        Content::Commands => heading_commands(reader, limit, bracket, mark),
        Content::Reporter => heading_reporter(reader, limit, bracket, mark),
    }
}

// The same where the content is statements.
fn heading_commands(
    reader: &mut Reader,
    limit: u64,
    bracket: Span,
    mark: Mark,
) -> Result<(), Refusal>
    ensures { Follows result reader.old reader.new
        (λ e K. feed_heading_commands limit bracket e K (mark_of mark)) }
{
    match mark {
        Mark::Word(head, class) => commands_word(reader, limit, bracket, head, class),
        Mark::OpenBracket(_) => {
            let names = KnownNames::empty(reader.alloc);
            reader.turn(Mode::InHead(Content::Commands, limit, bracket, names));
            Ok(())
        }
        mark => state_content(reader, bracket, mark),
    }
}

// A word there.
fn commands_word(
    reader: &mut Reader,
    limit: u64,
    bracket: Span,
    head: Head,
    class: Class,
) -> Result<(), Refusal>
    ensures { Follows result reader.old reader.new
        (λ e K.
        feed_heading_commands limit bracket e K
        (word head.name (class_of class) head.place)) }
{
    match class {
        Class::Arrow => {
            let names = KnownNames::empty(reader.alloc);
            begin_content(reader, Content::Commands, bracket, names)
        }
        Class::Unknown => lone_name(reader, Content::Commands, limit, bracket, head.name),
        class => state_content(reader, bracket, Mark::Word(head, class)),
    }
}

// The first token of statements that have no head.
#[tactic(auto, using(crate::proofs::Stacked::no_content, crate::proofs::Stacked::some_content))]
fn state_content(reader: &mut Reader, bracket: Span, mark: Mark) -> Result<(), Refusal>
    ensures { Follows result reader.old reader.new
        (λ e K. feed_stating e (InArrowCommands bracket e [] none ∷ K) (mark_of mark)) }
{
    if !states(&mark) {
        return refuse(mark);
    }
    let names = Names::empty(reader.alloc);
    let known = KnownNames::empty(reader.alloc);
    let statements = Grouped::new(reader.alloc);
    reader.put(Frame::ArrowCommands(bracket, names, known, statements))?;
    feed_stating(reader, mark)
}

// Whether the token begins a statement, or closes the block.
fn states(mark: &Mark) -> bool
    ensures { result ≡ states (mark_of mark.now) }
{
    match mark {
        Mark::Word(_, Class::Command(_)) => true,
        Mark::Word(_, Class::Let) => true,
        Mark::OpenParen(_) => true,
        Mark::CloseBracket(_) => true,
        _ => false,
    }
}

// A token right behind the bracket where the content is an expression.
fn heading_reporter(
    reader: &mut Reader,
    limit: u64,
    bracket: Span,
    mark: Mark,
) -> Result<(), Refusal>
    ensures { Follows result reader.old reader.new
        (λ e K. feed_heading_reporter limit bracket e K (mark_of mark)) }
{
    match mark {
        Mark::Word(head, class) => reporter_word(reader, limit, bracket, head, class),
        mark => start_content(reader, limit, bracket, mark),
    }
}

// A word there: one that has no row is a local that is known, or else a name.
fn reporter_word(
    reader: &mut Reader,
    limit: u64,
    bracket: Span,
    head: Head,
    class: Class,
) -> Result<(), Refusal>
    ensures { Follows result reader.old reader.new
        (λ e K.
        feed_heading_reporter limit bracket e K
        (word head.name (class_of class) head.place)) }
{
    match class {
        Class::Arrow => {
            let names = KnownNames::empty(reader.alloc);
            begin_content(reader, Content::Reporter, bracket, names)
        }
        Class::Unknown => {
            if reader.knows(head.name.as_bytes()) {
                return start_content(reader, limit, bracket, Mark::Word(head, class));
            }
            lone_name(reader, Content::Reporter, limit, bracket, head.name)
        }
        class => start_content(reader, limit, bracket, Mark::Word(head, class)),
    }
}

// The first token of an expression that has no head so far.
#[tactic(auto, using(crate::proofs::Stacked::no_start, crate::proofs::Stacked::a_start))]
fn start_content(reader: &mut Reader, limit: u64, bracket: Span, mark: Mark) -> Result<(), Refusal>
    ensures { Follows result reader.old reader.new
        (λ e K. feed_begin e (InNoHead bracket limit ∷ K) (mark_of mark)) }
{
    if !starts(reader, &mark) {
        return refuse(mark);
    }
    reader.put(Frame::NoHead(bracket, limit))?;
    feed_begin(reader, mark)
}

// Whether an expression begins with the token.
fn starts(reader: &Reader, mark: &Mark) -> bool
    ensures { result ≡ starts (names_of reader.now) (mark_of mark.now) }
{
    match mark {
        Mark::Word(head, class) => starts_with(reader, head, *class),
        Mark::Number(_, _) => true,
        Mark::Text(_, _) => true,
        Mark::OpenBracket(_) => true,
        Mark::OpenParen(_) => true,
        _ => false,
    }
}

// Whether one begins with the word.
fn starts_with(reader: &Reader, head: &Head, class: Class) -> bool
    ensures { result
        ≡ starts (names_of reader.now) (word head.now.name (class_of class) head.now.place) }
{
    match class {
        Class::Unknown => reader.knows(head.name.as_bytes()),
        Class::Constant => true,
        Class::Plain => true,
        Class::Named => true,
        Class::Prefix(_) => true,
        Class::Many(_) => true,
        Class::Closing(_, _) => true,
        _ => false,
    }
}

// A word without a row right behind the bracket: the name of a head, if it isn't known.
#[tactic(auto, using(crate::proofs::Stacked::no_name, crate::proofs::Stacked::a_name))]
fn lone_name(
    reader: &mut Reader,
    content: Content,
    limit: u64,
    bracket: Span,
    name: Str,
) -> Result<(), Refusal>
    ensures { Follows result reader.old reader.new
        (λ e K. feed_lone_name (not (among name e)) content limit bracket name e K) }
{
    if reader.knows(name.as_bytes()) {
        return refuse(name);
    }
    if limit == 0 {
        return refuse(name);
    }
    let mut names = KnownNames::empty(reader.alloc);
    names.push(reader.alloc, name)?;
    reader.turn(Mode::Behind(content, bracket, names));
    Ok(())
}

/// A token in the brackets of a head, behind these names.
pub(crate) fn feed_in_head(
    reader: &mut Reader,
    content: Content,
    limit: u64,
    bracket: Span,
    names: KnownNames,
    mark: Mark,
) -> Result<(), Refusal>
    ensures { Follows result reader.old reader.new
        (λ e K.
        feed_in_head content limit bracket e names (made_over names e) K (mark_of mark)) }
{
    match mark {
        Mark::Word(head, class) => {
            head_word(reader, content, limit, bracket, names, head, class)
        }
        Mark::CloseBracket(_) => {
            reader.turn(Mode::Behind(content, bracket, names));
            Ok(())
        }
        other => refuse(other),
    }
}

// A word there.
fn head_word(
    reader: &mut Reader,
    content: Content,
    limit: u64,
    bracket: Span,
    names: KnownNames,
    head: Head,
    class: Class,
) -> Result<(), Refusal>
    ensures { Follows result reader.old reader.new
        (λ e K.
        feed_in_head content limit bracket e names (made_over names e) K
        (word head.name (class_of class) head.place)) }
{
    match class {
        Class::Unknown => another_name(reader, content, limit, bracket, names, head.name),
        _ => Err(Refusal::Unexpected),
    }
}

// A name there, which isn't known yet.
#[tactic(auto, using(nl_parse_reading::proofs::Framed::among_made))]
fn another_name(
    reader: &mut Reader,
    content: Content,
    limit: u64,
    bracket: Span,
    names: KnownNames,
    name: Str,
) -> Result<(), Refusal>
    ensures { Follows result reader.old reader.new
        (λ e K.
        feed_head_name (not (among name (made_over names e))) content limit bracket e names
        name (made_over names e) K) }
{
    if names.has(name.as_bytes()) {
        return refuse(name);
    }
    if reader.knows(name.as_bytes()) {
        return refuse(name);
    }
    add_name(reader, content, limit, bracket, names, name)
}

/// A token behind the names of a head, which is the arrow.
pub(crate) fn feed_behind(
    reader: &mut Reader,
    content: Content,
    bracket: Span,
    names: KnownNames,
    mark: Mark,
) -> Result<(), Refusal>
    ensures { Follows result reader.old reader.new
        (λ e K. feed_behind content bracket e names (made_over names e) K (mark_of mark)) }
{
    match mark {
        Mark::Word(head, class) => behind_word(reader, content, bracket, names, head, class),
        other => refuse(other),
    }
}

// A word there.
fn behind_word(
    reader: &mut Reader,
    content: Content,
    bracket: Span,
    names: KnownNames,
    head: Head,
    class: Class,
) -> Result<(), Refusal>
    ensures { Follows result reader.old reader.new
        (λ e K.
        feed_behind content bracket e names (made_over names e) K
        (word head.name (class_of class) head.place)) }
{
    match class {
        Class::Arrow => begin_content(reader, content, bracket, names),
        _ => Err(Refusal::Unexpected),
    }
}

// The content of an arrow block, behind a head with these names.
fn begin_content(
    reader: &mut Reader,
    content: Content,
    bracket: Span,
    names: KnownNames,
) -> Result<(), Refusal>
    ensures { Reaches result reader.old reader.new
        (λ e K. begin_content content bracket e names (made_over names e) K) }
{
    match content {
        Content::Commands => {
            let listed = names.copied(reader.alloc)?;
            let statements = Grouped::new(reader.alloc);
            reader.enter(
                Mode::Stating,
                Frame::ArrowCommands(bracket, listed, names, statements),
            )
        }
        Content::Reporter => reader.enter(Mode::Begin, Frame::ArrowReporter(bracket, names)),
    }
}

/// A token behind an expression in an arrow block that has no head so far: what closes the block, or the arrow behind an empty list, which
/// is a head without names.
#[tactic(auto, using(crate::proofs::Stacked::at_arrow, crate::proofs::Stacked::at_no_arrow))]
pub(crate) fn feed_no_head(
    reader: &mut Reader,
    tree: Grown,
    bracket: Span,
    mark: Mark,
) -> Result<(), Refusal>
    ensures { Follows result reader.old reader.new
        (λ e K. feed_no_head tree bracket e K (mark_of mark)) }
{
    if is_arrow(&mark) {
        let_go(mark);
        return begin_no_names(reader, tree, bracket);
    }
    let names = KnownNames::empty(reader.alloc);
    feed_arrow_reporter(reader, tree, bracket, names, mark)
}

// Whether the token is the arrow.
fn is_arrow(mark: &Mark) -> bool
    ensures { result ≡ is_arrow (mark_of mark.now) }
{
    match mark {
        Mark::Word(_, Class::Arrow) => true,
        _ => false,
    }
}

// The arrow behind this tree.
#[tactic(auto, using(crate::proofs::Stacked::no_names, crate::proofs::Stacked::some_names))]
fn begin_no_names(reader: &mut Reader, tree: Grown, bracket: Span) -> Result<(), Refusal>
    ensures { Follows result reader.old reader.new (feed_no_names tree bracket) }
{
    let (label, _, parts) = tree.taken_apart();
    let Label::List = label else {
        return Err(Refusal::Unexpected);
    };
    if !parts.is_none() {
        return Err(Refusal::Unexpected);
    }
    let names = KnownNames::empty(reader.alloc);
    begin_content(reader, Content::Reporter, bracket, names)
}

/// A token behind the expression in an arrow block with a head of these names.
pub(crate) fn feed_arrow_reporter(
    reader: &mut Reader,
    tree: Grown,
    bracket: Span,
    names: KnownNames,
    mark: Mark,
) -> Result<(), Refusal>
    ensures { Follows result reader.old reader.new
        (λ e K. feed_arrow_reporter tree bracket e names K (mark_of mark)) }
{
    match mark {
        Mark::CloseBracket(_) => {
            let listed = names.copied(reader.alloc)?;
            let block = Grown::over(reader.alloc, Label::Arrow(listed), bracket, tree)?;
            reader.supply(block)
        }
        other => refuse(other),
    }
}
