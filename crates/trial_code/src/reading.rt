//! Models and lone texts, read and checked.
ghost use Rattle.nl_tree.specs.Names.{AreWidgets};

use nl_check_model::{read_lone, read_program};
use nl_fixed::Names;
use nl_scan::{Source, scan};
use nl_tree::{Form, Program, Tree};
use std::alloc::Global;

fn no_widgets(alloc: Global) -> Names
    ensures { AreWidgets result }
{
    Names::empty(alloc)
}

/// The checked program of a model that has no widgets; none where that has a fault.
pub(crate) fn program_of(alloc: Global, code: &[u8]) -> Option<Program> {
    let tokens = scan(alloc, code).ok()?;
    let source = Source::new(code, tokens.as_slice());
    read_program(alloc, &source, no_widgets(alloc)).ok()
}

/// The tree of a lone text that the observer runs; none where it has a fault.
pub(crate) fn text_of(alloc: Global, program: &Program, form: Form, text: &[u8]) -> Option<Tree> {
    read_lone(alloc, text, form, program).ok()
}
