//! A text with its tokens.
ghost use Rattle.std.specs.Prelude.{◌≡◌, ◌≤◌, Ok, length};
ghost use Rattle.nl_scan.specs.Faults.{text_limit};
ghost use Rattle.nl_scan.specs.Tokens.{AreInOrder, start_of, tokens_of};

use crate::token::Token;

/// A text, as the code of a model, with the tokens that it is cut into. All of them lie in the text, in order, and the
/// text is no longer than the limit.
#[derive(Clone, Copy)]
pub struct Source<'a> {
    pub text: &'a [u8],
    pub tokens: &'a [Token],
    pub ghost scanned: { tokens_of text.now ≡ Ok tokens.now },
}

impl<'a> Source<'a> {
    /// The text and its tokens.
    pub fn new(text: &'a [u8], tokens: &'a [Token]) -> Source<'a>
        requires { tokens_of text.now ≡ Ok tokens.now }
        ensures text { result.text.now ≡ text.now }
        ensures tokens { result.tokens.now ≡ tokens.now }
    {
        Source { text, tokens }
    }

    /// The text.
    pub fn text(&self) -> &'a [u8]
        ensures is { result.now ≡ self.now.text.now }
        ensures short { length result.now ≤ text_limit }
    {
        self.text
    }

    /// The tokens, in order.
    pub fn tokens(&self) -> &'a [Token]
        ensures is { result.now ≡ self.now.tokens.now }
        ensures order { AreInOrder 0 (length self.now.text.now) result.now }
    {
        self.tokens
    }

    /// The place at which the token of an index begins, or the text's end where there is none.
    pub fn start_of(&self, index: usize) -> u32
        ensures { result ≡ start_of self.now.text.now self.now.tokens.now index }
    {
        match self.tokens.get(index) {
            Some(token) => token.span.start,
            None => self.text.len() as u32,
        }
    }
}
