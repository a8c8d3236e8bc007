//! The tokens of a model's text.
#![tactic(auto)]

pub mod code;
pub mod content;
pub mod laws;
mod pieces;
pub mod place;
pub mod scanner;
pub mod source;
pub mod texts;
pub mod token;

pub use code::code_part;
pub use content::text_of;
pub use place::line_column;
pub use scanner::scan;
pub use source::Source;
pub use texts::{bytes_of, word_of};
pub use token::{Lexeme, ScanKind, ScanRefusal, Token, Tokens};

/// A text of more bytes is refused.
pub const TEXT_LIMIT: usize = 4_194_304;
