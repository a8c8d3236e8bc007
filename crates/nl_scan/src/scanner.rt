//! A text cut into tokens.
ghost use Rattle.std.specs.Prelude.{◌≡◌, ◌≤◌, [], length, Ok, IfOk, IsErrOf, IsOk};
ghost use Rattle.nl_scan.specs.Faults.{text_limit};
ghost use Rattle.nl_scan.specs.Tokens.{AreInOrder, IsText, Scans, tokens_of};
ghost use Rattle.nl_scan.specs.declared.token.ScanRefusal.TheVariants as ScanRefusal;
ghost use Rattle.nl_scan.specs.inner.Pieces.{cut_from};

use crate::TEXT_LIMIT;
use crate::pieces::{Piece, first_piece};
use crate::token::{ScanKind, ScanRefusal, Token, Tokens};
use nl_fixed::Span;
use std::alloc::Global;

/// The tokens of a text, or its first fault.
pub fn scan(alloc: Global, text: &[u8]) -> Result<Tokens, ScanRefusal>
    ensures tokens { Scans (tokens_of text.now) result }
    ensures order { IfOk result (AreInOrder 0 (length text.now)) }

    // Memory is wanted for tokens alone, so never of a text that is too long or none.
    ensures want { IsErrOf result ScanRefusal.NoMemory → IsText text.now }
    ensures no_tokens { tokens_of text.now ≡ Ok [] → IsOk result }
{
    if text.len() > TEXT_LIMIT {
        return Err(ScanRefusal::Fault {
            kind: ScanKind::TooLong,
            place: TEXT_LIMIT as u32,
        });
    }
    if let Err(fault) = str::from_utf8(text) {
        return Err(ScanRefusal::Fault {
            kind: ScanKind::NotText,
            place: fault.valid_up_to() as u32,
        });
    }
    cut(alloc, text)
}

// The tokens of a text that is neither too long nor anything but text.
fn cut(alloc: Global, text: &[u8]) -> Result<Tokens, ScanRefusal>
    requires { length text.now ≤ text_limit }
    ensures tokens { Scans (cut_from (length text.now) 0 text.now) result }
    ensures order { IfOk result (AreInOrder 0 (length text.now)) }
    ensures no_tokens { cut_from (length text.now) 0 text.now ≡ Ok [] → IsOk result }
{
    let mut tokens = Tokens::empty(alloc);
    let mut at = 0;
    'pieces: while at < text.len() {
        match first_piece(&text[at..]) {
            Piece::Gap(len) => at += len,
            Piece::Found(lexeme, len) => {
                let span = Span {
                    start: at as u32,
                    len: len as u32,
                };
                tokens.push(alloc, Token { lexeme, span })?;
                at += len;
            }
            Piece::Bad(kind, before) => {
                return Err(ScanRefusal::Fault {
                    kind,
                    place: (at + before) as u32,
                });
            }
        }
    }
    Ok(tokens)
}
