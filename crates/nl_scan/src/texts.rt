//! The bytes of a token, and its word.
ghost use Rattle.std.specs.Prelude.{◌≡◌, IfOk};
ghost use Rattle.nl_scan.specs.Texts.{LiesIn, bytes_of, word_at};

use crate::token::Token;
use nl_fixed::{NoMemory, Str};
use std::alloc::Global;

/// The bytes of a token of a text.
pub fn bytes_of<'a>(text: &'a [u8], token: &Token) -> &'a [u8]
    requires { LiesIn text.now token.now.span }
    ensures { result.now ≡ bytes_of text.now token.now }
{
    let start = token.span.start as usize;
    let len = token.span.len as usize;
    &text[start..start + len]
}

/// The bytes of a token of a text in lower case, as a word is compared with others.
pub fn word_of(alloc: Global, text: &[u8], token: &Token) -> Result<Str, NoMemory>
    requires { LiesIn text.now token.now.span }
    ensures { IfOk result (λ word. word ≡ word_at text.now token.now.span) }
{
    let word = bytes_of(text, token).to_ascii_lowercase(alloc)?;
    Ok(Str::of_vec(word))
}
