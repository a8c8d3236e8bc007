//! Tokens, and why a text has none.
ghost use Rattle.std.specs.Prelude.{◌≡◌, [], ◌∷◌, ◌++◌, OnOk, OnErr};

use nl_fixed::{NoMemory, Num, Span};
use std::alloc::Global;
use std::fmt;
use std::marker::Model;

/// What a token is.
#[derive(Clone, Copy, Debug, PartialEq, Eq)]
pub enum Lexeme {
    /// A run of letters, digits and marks that hasn't the form of a number.
    Word,
    /// Such a run that writes this number.
    Number(Num),
    /// A text in double quotes, on one line.
    Text,
    /// `[`
    Open,
    /// `]`
    Close,
    /// `(`
    OpenParen,
    /// `)`
    CloseParen,
}

/// A token and where it stands in its text.
#[derive(Clone, Copy, Debug, PartialEq, Eq)]
pub struct Token {
    pub lexeme: Lexeme,
    pub span: Span,
}

/// What is wrong with a text.
#[derive(Clone, Copy, Debug, PartialEq, Eq)]
pub enum ScanKind {
    /// The text has more bytes than the limit; the place is the first byte past it.
    TooLong,
    /// The text isn't UTF-8; the place is the first byte that begins no character.
    NotText,
    /// A byte that belongs to no gap and no token.
    BadChar,
    /// A text that isn't closed on its line; the place is its opening quote.
    OpenText,
    /// A backslash in a text with another character behind it than `n`, `t`, `\` and `"`.
    BadEscape,
    /// A word that has the form of a number and writes none.
    BadNumber,
}

impl fmt::Display for ScanKind {
    ghost use Rattle.nl_scan.specs.Faults.{scan_kind_text};
    ghost use Rattle.std.specs.Prelude.{Some};

    ghost output = { λ kind. Some (scan_kind_text kind) };

    fn fmt<W: fmt::Write>(&self, f: &mut fmt::Formatter<W>) -> fmt::Result {
        match self {
            ScanKind::TooLong => write!(f, "TooLong"),
            ScanKind::NotText => write!(f, "NotText"),
            ScanKind::BadChar => write!(f, "BadChar"),
            ScanKind::OpenText => write!(f, "OpenText"),
            ScanKind::BadEscape => write!(f, "BadEscape"),
            ScanKind::BadNumber => write!(f, "BadNumber"),
        }
    }
}

/// Why a text has no tokens: its first fault with the byte at which it stands, or want of memory.
#[derive(Clone, Copy, Debug, PartialEq, Eq)]
pub enum ScanRefusal {
    Fault { kind: ScanKind, place: u32 },
    NoMemory,
}

impl From<NoMemory> for ScanRefusal {
    ghost use Rattle.std.specs.Prelude.{◌≡◌};
    ghost use Rattle.nl_scan.specs.declared.token.ScanRefusal.TheVariants as ScanRefusal;

    ghost from_gives = { λ _ refusal. refusal ≡ ScanRefusal.NoMemory };

    fn from(_refused: NoMemory) -> ScanRefusal {
        ScanRefusal::NoMemory
    }
}

/// Tokens, in the order of the text.
#[derive(Drop)]
pub struct Tokens {
    list: Vec<Token>,
}

impl Model for Tokens {
    ghost use Rattle.std.specs.Prelude.{List};
    ghost use Rattle.nl_scan.specs.declared.token.Token.{Token};

    ghost Value = { List Token };

    ghost view = { λ tokens. tokens.list.items };
}

impl Tokens {
    /// No tokens.
    pub fn empty(alloc: Global) -> Tokens
        ensures { result ≡ [] }
    {
        Tokens {
            list: Vec::new(alloc),
        }
    }

    /// The tokens, in order.
    pub fn as_slice(&self) -> &[Token]
        ensures { result.now ≡ self.now }
    {
        self.list.as_slice()
    }

    /// Appends a token, or leaves the list as it was.
    pub fn push(&mut self, _alloc: Global, token: Token) -> Result<(), NoMemory>
        ensures ok { OnOk result (self.new ≡ self.old ++ token ∷ []) }
        ensures err { OnErr result (self.new ≡ self.old) }
    {
        // Put together anew, since the prover has no plan for a push of a whole token that may hold a number.
        let Token { lexeme, span } = token;
        self.list.push(Token { lexeme, span })?;
        Ok(())
    }
}
