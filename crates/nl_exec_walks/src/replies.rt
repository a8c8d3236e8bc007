//! What becomes of a member's answer.
ghost use Rattle.std.specs.Prelude.{◌≡◌};
ghost use Rattle.nl_value.specs.Views.{plain};
ghost use Rattle.nl_exec_meaning.specs.Walks.{deciding_truth, kept_number, kept_truth, reply_to};
ghost use Rattle.nl_exec_walks.specs.Turns.{reply_seen};

use nl_exec_meaning::Over;
use nl_value::Value;

/// What becomes of an answer: it is kept, or passed over, or it decides the word's answer, or it is of the wrong kind.
#[derive(Clone, Copy)]
pub enum Reply {
    Keep,
    Pass,
    Decide(bool),
    Refuse,
}

// Only what is true is kept.
fn kept_truth(value: &Value) -> Reply
    ensures { reply_seen result ≡ kept_truth (plain value.now) }
{
    match value {
        Value::Truth(true) => Reply::Keep,
        Value::Truth(false) => Reply::Pass,
        _ => Reply::Refuse,
    }
}

// The first that is false decides.
fn deciding_truth(value: &Value) -> Reply
    ensures { reply_seen result ≡ deciding_truth (plain value.now) }
{
    match value {
        Value::Truth(true) => Reply::Pass,
        Value::Truth(false) => Reply::Decide(false),
        _ => Reply::Refuse,
    }
}

// What is no number is passed over.
fn kept_number(value: &Value) -> Reply
    ensures { reply_seen result ≡ kept_number (plain value.now) }
{
    match value {
        Value::Number(_) => Reply::Keep,
        _ => Reply::Pass,
    }
}

/// What becomes of an answer to a word.
pub fn reply_to(word: Over, value: &Value) -> Reply
    ensures { reply_seen result ≡ reply_to word (plain value.now) }
{
    match word {
        Over::With => kept_truth(value),
        Over::All => deciding_truth(value),
        Over::WithMax | Over::WithMin | Over::MaxOneOf | Over::MinOneOf => kept_number(value),
        Over::Ask | Over::Of | Over::MaxNOf | Over::MinNOf | Over::SortOn => Reply::Keep,
    }
}
