//! How the evaluation of a node ends.

use nl_exec_acts::ErrorKind;
use nl_fixed::Span;
use nl_value::Value;

/// How an evaluation ends; that a unit was wanted and none was left isn't among these, since the machine stops there and goes on with the next
/// units. A statement that goes on gives a value too, which no other statement sees: nobody, or true where it is the call of
/// a procedure that ended by `stop`.
#[derive(Drop)]
pub enum Exit {
    Gives(Value),
    Stopped,
    Reported(Value),
    /// The agent that ran has died.
    Left,
    /// What went wrong, where in its text, and in which body: 0 is the lone text, and i + 1 that of procedure i.
    Error(ErrorKind, Span, u64),
}
