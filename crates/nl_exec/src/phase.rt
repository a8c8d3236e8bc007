//! Whether a text is open.
ghost use Rattle.std.specs.Prelude.{◌≡◌};
ghost use Rattle.nl_exec.specs.Slices.{focus_of};

use nl_exec_levels::focus::{Focus, Wish};
use nl_tree::Form;

/// Whether a text is open.
#[derive(Clone, Copy, PartialEq, Eq, Debug)]
pub enum Phase {
    /// No text is open.
    Closed,
    /// A text is open that hasn't begun: this is its node.
    Begun(u32),
    /// A text is open, and wants a unit.
    Waiting(Wish),
    /// Memory was wanting.
    Failed,
}

/// What comes next in an open text of this form. None where no text is open, or memory was wanting.
pub fn focus_of(phase: Phase, form: Form) -> Option<Focus>
    ensures { result ≡ focus_of phase form }
{
    match phase {
        Phase::Begun(node) => Some(Focus::Start(form, node)),
        Phase::Waiting(wish) => Some(Focus::Want(wish)),
        Phase::Closed | Phase::Failed => None,
    }
}
