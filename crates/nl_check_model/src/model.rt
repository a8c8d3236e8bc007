//! The file of a model.
ghost use Rattle.nl_tree.specs.Names.{AreWidgets};
ghost use Rattle.nl_check_model.specs.Verdict.{CodeSays, IsVerdict, ModelGives};

use crate::faults::{ModelKind, ModelRefusal, refusal_at};
use crate::program::read_program;
use nl_fixed::Names;
use nl_scan::{ScanKind, ScanRefusal, Source, TEXT_LIMIT, code_part, scan};
use nl_tree::Program;
use std::alloc::Global;

// The program that the code of a file is.
fn read_code(alloc: Global, code: &[u8], widgets: Names) -> Result<Program, ModelRefusal>
    requires { AreWidgets widgets }
    ensures { ModelGives (CodeSays widgets code.now) result }
{
    match scan(alloc, code) {
        Ok(tokens) => read_program(alloc, &Source::new(code, tokens.as_slice()), widgets),
        Err(ScanRefusal::Fault { kind, place }) => {
            Err(refusal_at(code, ModelKind::Scan(kind), place))
        }
        Err(ScanRefusal::NoMemory) => Err(ModelRefusal::NoMemory),
    }
}

/// The checked program that a file is beside widgets with these names, or its first fault.
///
/// A file of more than 4,194,304 bytes is TooLong at the first byte past them, so that one byte more is all that needs to be read of it. Else
/// the code of the file is read, which is what stands before its sections, and each fault has its place there.
#[tactic(auto, unfolding(crate::specs::Verdict::IsVerdict))]
pub fn read_model(alloc: Global, file: &[u8], widgets: Names) -> Result<Program, ModelRefusal>
    requires { AreWidgets widgets }
    ensures { ModelGives (IsVerdict widgets file.now) result }
{
    if file.len() > TEXT_LIMIT {
        let kind = ModelKind::Scan(ScanKind::TooLong);
        return Err(refusal_at(file, kind, TEXT_LIMIT as u32));
    }
    read_code(alloc, code_part(file), widgets)
}
