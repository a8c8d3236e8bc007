//! What texts say.
ghost use Rattle.std.specs.Prelude.{◌≡◌, ◌++◌, [], false, IfOk, IsOk};
ghost use Rattle.nl_scan.specs.declared.token.Lexeme.{Lexeme};
ghost use Rattle.nl_scan.specs.Contents.{content_of, escaped, resolved};
ghost use Rattle.nl_scan.specs.Tokens.{IsTokenOf};

use crate::token::Token;
use nl_fixed::{NoMemory, Str};
use std::alloc::Global;

// What a backslash and this byte stand for.
fn escape(byte: u8) -> u8
    ensures { result ≡ escaped byte }
{
    match byte {
        b'n' => b'\n',
        b't' => b'\t',
        other => other,
    }
}

// What stands between quotes, with its escapes resolved.
fn resolve(alloc: Global, written: &[u8]) -> Result<Str, NoMemory>
    ensures is { IfOk result (λ content. content ≡ resolved false written.now) }
    ensures none { resolved false written.now ≡ [] → IsOk result }
{
    let mut content = Vec::new(alloc);
    let mut behind = false;
    'bytes: for byte in written {
        if behind {
            content.push(escape(*byte))?;
            behind = false;
        } else if *byte == b'\\' {
            behind = true;
        } else {
            content.push(*byte)?;
        }
    }
    Ok(Str::of_vec(content))
}

/// What a text token of a text says: the characters between its quotes, each escape resolved: `\n` is a line feed, `\t`
/// a tab, `\\` a backslash and `\"` a quote. A text that says nothing takes no memory.
pub fn text_of(alloc: Global, text: &[u8], token: &Token) -> Result<Str, NoMemory>
    requires is_text { token.now.lexeme ≡ Lexeme.Text }
    requires is_token { IsTokenOf text.now token.now }
    ensures is { IfOk result (λ content. content ≡ content_of text.now token.now) }
    ensures none { content_of text.now token.now ≡ [] → IsOk result }
{
    let start = token.span.start as usize + 1;
    let len = token.span.len as usize - 2;
    resolve(alloc, &text[start..start + len])
}
