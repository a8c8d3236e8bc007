//! How texts end.
ghost use Rattle.std.specs.Prelude.{◌≡◌};
ghost use Rattle.nl_exec_meaning.specs.Ground.{Ground};
ghost use Rattle.nl_exec_meaning.specs.Seen.{exit_seen};
ghost use Rattle.nl_exec_meaning.specs.Standing.{ExitFits};
ghost use Rattle.nl_exec_meaning.specs.LoneTexts as ending;
ghost use Rattle.nl_exec_meaning.specs.LoneTexts.{ending_of};
ghost use Rattle.nl_exec.specs.Endings.{EndFits, end_seen};

use nl_exec_acts::ErrorKind;
use nl_exec_meaning::Exit;
use nl_fixed::Span;
use nl_tree::Form;
use nl_value::Value;

/// How a lone text ends.
#[derive(Drop)]
pub enum End {
    /// A text of commands ran to its end.
    Done,
    /// `stop` left a text of commands, or ended a procedure that it calls outside of every block.
    Stopped,
    /// The value of a reporter.
    Reported(Value),
    /// A unit was wanted, and the budget was spent.
    Budget,
    /// What went wrong, where in its text, and in which body: 0 is the lone text, and i + 1 that of procedure i.
    Error {
        kind: ErrorKind,
        span: Span,
        body: u64,
    },
}

/// The end of a text of this form, by that of its evaluation.
pub fn end_of(form: Form, exit: Exit) -> End
    ensures end { end_seen result ≡ ending_of form (exit_seen exit) }
    ensures fits { (g : Ground) → ExitFits g exit → EndFits g result }
    ensures units { end_seen result ≡ ending.Budget → ⊥ }
{
    match exit {
        Exit::Gives(value) => match form {
            Form::Commands => End::Done,
            Form::Reporter => End::Reported(value),
        },
        Exit::Stopped => End::Stopped,
        Exit::Reported(value) => End::Reported(value),
        // The observer runs a lone text, and never dies.
        Exit::Left => End::Done,
        Exit::Error(kind, span, body) => End::Error { kind, span, body },
    }
}
