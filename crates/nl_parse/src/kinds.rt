//! Why a token can't follow.
ghost use Rattle.std.specs.Prelude.{◌≡◌};
ghost use Rattle.nl_tree.specs.Vocabulary.{among};
ghost use Rattle.nl_parse_grammar.specs.Fault.{known, kind_at};
ghost use Rattle.nl_parse_reading.specs.inner.View.{mark_of};
ghost use Rattle.nl_parse_stack.specs.inner.State.{state_of};

use nl_parse_reading::frames::Mode;
use nl_parse_reading::known::{makes_next, mode_makes};
use nl_parse_reading::marks::{Class, Mark};
use nl_parse_stack::reader::Reader;
use nl_tree::BodyKind;

/// Why this token can't follow, if it can't.
pub(crate) fn kind_before(reader: &Reader, mark: &Mark) -> BodyKind
    ensures { result ≡ kind_at (state_of reader.now) (mark_of mark.now) }
{
    match mark {
        Mark::Word(head, Class::Unknown) => {
            if knows_next(reader, head.name.as_bytes()) {
                BodyKind::Unexpected
            } else {
                BodyKind::UnknownName
            }
        }
        _ => BodyKind::Unexpected,
    }
}

// Whether the name is known in a reading that is still open: behind the value of a `let` its new name is.
fn knows_next(reader: &Reader, name: &[u8]) -> bool
    ensures { result ≡ among name.now (known (state_of reader.now)) }
{
    if let Mode::Have(_, _) = &reader.mode {
        return makes_next(reader.stack.as_slice(), name) || reader.knows(name);
    }
    mode_makes(&reader.mode, name) || reader.knows(name)
}
