//! The top call.
ghost use Rattle.std.specs.Prelude.{◌≡◌, ◌≤◌, ◌↔◌, None};
ghost use Rattle.std.specs.Option.{ForSome};
ghost use Rattle.nl_cli.specs.Outcome.{Complete, Outcome, asked, given};
ghost use Rattle.nl_cli.specs.Limits.{most_size};
ghost use Rattle.nl_cli.specs.inner.Stages.{Measures, Runs};
ghost use Rattle.nl_cli.specs.Words as spec;
ghost use Rattle.nl_cli.specs.Words.{AllServed, IsRight, IsRightTask, PathsServed, command_in, command_of, paths_in, task_in};

use crate::ends::{End, Status};
use crate::job::{gather, made};
use crate::summary::put_summary;
use crate::tasks::done;
use crate::told::{USAGE_LINE, say, tell};
use crate::words::{Command, MEASURE, Paths, Task, command_of, paths_for};
use nl_agents::Store;
use nl_outer::{Args, Files, Sink};
use nl_store::Indexed;
use std::alloc::Global;

// A task over two files.
fn over<S: Store, F: Files, O: Sink>(
    alloc: Global,
    paths: &Paths<'_>,
    task: &Task<'_>,
    files: &mut F,
    out: &mut O,
) -> Result<(), End>
    requires served { PathsServed (F.serves files.old) (paths_in paths.now) }
    requires right { IsRightTask (task_in task.now) }
    ensures { Runs (spec.over (paths_in paths.now) (task_in task.now))
        (asked F.faults F.last_fault F.folder files.old files.new)
        (given O.faults O.written out.old out.new) result }
{
    let job = gather(alloc, paths, files)?;
    done::<S, O>(alloc, paths.model, task, &job, out)
}

// The measure of a size.
fn bench<S: Store, O: Sink>(alloc: Global, size: u64, out: &mut O) -> Result<(), End>
    requires { size ≤ most_size }
    ensures { Measures size (given O.faults O.written out.old out.new) result }
{
    let job = made(alloc, size)?;
    put_summary::<S, O>(alloc, MEASURE, &job, out)
}

// A command, over stores of this kind.
fn course<S: Store, F: Files, O: Sink>(
    alloc: Global,
    command: &Command<'_>,
    files: &mut F,
    out: &mut O,
) -> Result<(), End>
    requires served { AllServed (F.serves files.old) (command_in command.now) }
    requires right { IsRight (command_in command.now) }
    ensures { Runs (command_in command.now)
        (asked F.faults F.last_fault F.folder files.old files.new)
        (given O.faults O.written out.old out.new) result }
{
    match command {
        Command::Over(paths, task) => over::<S, F, O>(alloc, paths, task, files, out),
        Command::Bench(size) => bench::<S, O>(alloc, *size, out),
    }
}

/// Does all that the program does, from its words on: reads the files that they name, puts the command's output to
/// `out` and, where it ends otherwise than by that, one line to `err`.
///
/// The first piece of a table is its header, and each run's rows are one piece. Nothing is put to `out` where an input
/// has a fault, and nothing more after a fault or want of memory. A failing `err` leaves the status.
pub fn run<F: Files, O: Sink, E: Sink>(
    alloc: Global,
    words: &Args,
    files: &mut F,
    out: &mut O,
    err: &mut E,
) -> Status
    // Each file that the words name may be asked for, and no other.
    requires { ForSome (command_of words.now) (AllServed (F.serves files.old)) }

    // What was written and why, and what failed, by the status.
    ensures outcome { Outcome words.now
        (asked F.faults F.last_fault F.folder files.old files.new)
        (given O.faults O.written out.old out.new)
        (given E.faults E.written err.old err.new) result }

    // The words alone decide this one.
    ensures usage { (result ≡ Status.Usage) ↔ (command_of words.now ≡ None) }

    // It doesn't give up by itself.
    ensures complete { Complete words.now
        (asked F.faults F.last_fault F.folder files.old files.new)
        (given O.faults O.written out.old out.new) result }
{
    let Some(command) = command_of(words) else {
        say(err, USAGE_LINE);
        return Status::Usage;
    };
    match course::<Indexed, F, O>(alloc, &command, files, out) {
        Ok(()) => Status::Done,
        Err(end) => tell(alloc, &paths_for(&command), &end, err),
    }
}
