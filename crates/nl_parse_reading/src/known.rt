//! Names that open frames make.
ghost use Rattle.std.specs.Prelude.{◌≡◌};
ghost use Rattle.nl_parse_reading.specs.inner.Known.{Makes, MakesNext, MakesBehind};
ghost use Rattle.nl_parse_reading.specs.inner.Reading.{maybe_over, mode_names, names_within};

use crate::frames::{Frame, Mode, TOP, closes, makes_name};
use nl_fixed::Str;

/// Whether the statement at hand makes this name, or the head.
#[tactic(auto, using(crate::proofs::Framed::among_made))]
pub fn mode_makes(mode: &Mode, name: &[u8]) -> bool
    ensures { Makes name.now result (mode_names mode.now) }
{
    match mode {
        Mode::InHead(_, _, _, names) => names.has(name),
        Mode::Behind(_, _, names) => names.has(name),
        Mode::Ended(_, made) => is_name(made, name),
        Mode::Dead(frame, made) => is_name(made, name) || makes_within(frame, name),
        _ => false,
    }
}

fn is_name(made: &Option<Str>, name: &[u8]) -> bool
    ensures { Makes name.now result (maybe_over made.now) }
{
    match made {
        Some(made) => made.as_bytes() == name,
        None => false,
    }
}

fn makes_within(frame: &Option<Frame>, name: &[u8]) -> bool
    ensures { Makes name.now result (names_within frame.now) }
{
    match frame {
        Some(frame) => makes_name(frame, name),
        None => false,
    }
}

/// Whether an operator's left side is the value of a `let` of this name, if it goes on no further.
pub fn makes_next(frames: &[Frame], name: &[u8]) -> bool
    ensures { MakesNext name.now result frames.now }
{
    let mut left = frames.len();
    'frames: while left > 0 {
        left -= 1;
        let frame = &frames[left];
        if !closes(TOP, frame) {
            return lets(frame, name);
        }
    }
    false
}

// Whether the frame is a `let` of this name.
fn lets(frame: &Frame, name: &[u8]) -> bool
    ensures { MakesBehind name.now result frame.now }
{
    match frame {
        Frame::Let(_, made) => made.name.as_bytes() == name,
        _ => false,
    }
}
