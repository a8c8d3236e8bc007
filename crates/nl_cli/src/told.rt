//! The line that tells why a call ended.
ghost use Rattle.std.specs.Prelude.{◌≡◌, map, IfOk};
ghost use Rattle.nl_cli.specs.Answer as spec;
ghost use Rattle.nl_cli.specs.Table.{joined_text};
ghost use Rattle.nl_cli.specs.Outcome.{Gets, given};
ghost use Rattle.nl_cli.specs.inner.Stages.{Tells};
ghost use Rattle.nl_cli.specs.Words.{paths_in, path_of};

use crate::ends::{End, Status};
use crate::words::{Paths, Role, path_for};
use nl_check_model::ModelFault;
use nl_experiment::PlanFault;
use nl_fixed::{NoMemory, Str};
use nl_outer::Sink;
use std::alloc::Global;

/// Where the words are no form.
pub const USAGE_LINE: &[u8] = b"nlspace: the words name no command\n";

const MEMORY_LINE: &[u8] = b"out of memory\n";

const WRITE_LINE: &[u8] = b"cannot write\n";

// Pieces, one after another.
fn joined(alloc: Global, pieces: &[&[u8]]) -> Result<Str, NoMemory>
    ensures { IfOk result (λ text. text ≡ joined_text (map (λ piece. piece.now) pieces.now)) }
{
    let mut text = Str::of_vec(Vec::new(alloc));
    'pieces: for piece in pieces {
        text.append(alloc, piece)?;
    }
    Ok(text)
}

fn model_line(alloc: Global, path: &str, fault: &ModelFault) -> Result<Str, NoMemory>
    ensures { IfOk result (λ line. line ≡ spec.model_line path.now fault.now) }
{
    let line = fault.line.to_string(alloc)?;
    let column = fault.column.to_string(alloc)?;
    let kind = fault.kind.to_string(alloc)?;
    joined(
        alloc,
        &[
            path.as_bytes(),
            b":",
            line.as_bytes(),
            b":",
            column.as_bytes(),
            b": ",
            kind.as_bytes(),
            b"\n",
        ],
    )
}

fn plan_line(alloc: Global, path: &str, fault: &PlanFault) -> Result<Str, NoMemory>
    ensures { IfOk result (λ line. line ≡ spec.plan_line path.now fault.now) }
{
    let fault = fault.text(alloc)?;
    joined(alloc, &[path.as_bytes(), b": ", fault.as_bytes(), b"\n"])
}

fn read_line(alloc: Global, paths: &Paths<'_>, role: Role) -> Result<Str, NoMemory>
    ensures { IfOk result (λ line. line ≡ spec.cannot_read (path_of (paths_in paths.now) role)) }
{
    let path = path_for(paths, role);
    joined(alloc, &[b"cannot read ", path.as_bytes(), b"\n"])
}

/// Puts a line, as far as that can be done.
pub fn say<E: Sink>(err: &mut E, line: &[u8])
    ensures { Gets line.now (given E.faults E.written err.old err.new) }
{
    let _ = err.put(line);
}

/// Tells an end, and gives the status. Where the end comes of memory or of `out`, this takes no memory.
pub fn tell<E: Sink>(alloc: Global, paths: &Paths<'_>, end: &End, err: &mut E) -> Status
    ensures { Tells (paths_in paths.now) end.now (given E.faults E.written err.old err.new) result }
{
    let line = match end {
        End::Model(fault) => model_line(alloc, paths.model, fault),
        End::Plan(fault) => plan_line(alloc, paths.experiment, fault),
        End::Read(role) => read_line(alloc, paths, *role),
        End::Write => {
            say(err, WRITE_LINE);
            return Status::Write;
        }
        End::Memory => {
            say(err, MEMORY_LINE);
            return Status::Memory;
        }
    };
    match line {
        Ok(line) => {
            say(err, line.as_bytes());
            end.status()
        }
        Err(NoMemory) => {
            say(err, MEMORY_LINE);
            Status::Memory
        }
    }
}
