//! What the table of built-in words says of a word of a model.
ghost use Rattle.std.specs.Prelude.{◌≡◌, ◌<◌, [], None, option_map, slice_get};
ghost use Rattle.nl_words.specs.Row.{row_of};
ghost use Rattle.nl_tree.specs.Context.{row_of_what, runner_by, manner_by, fixed_by, leaving_by, is_same, is_operator, is_nearest};
ghost use Rattle.nl_tree.specs.Index.{named};
ghost use Rattle.nl_tree.specs.Tokens.{inputs_of};

use nl_tree::{What, Word};
use nl_words::{Entry, Input, Leaving, Manner, Role, Runner, base_words};

// The entry of the built-in word whose rule a word has: its own, or that of a breed's word without the breed. Any other word has none.
fn rule(what: What) -> Option<Entry>
    ensures { option_map row_of result ≡ row_of_what what }
{
    let words = base_words();
    match what {
        What::Base(code) | What::Made(_, code) => words.row(code).copied(),
        What::Global(_) | What::Own(_) | What::Procedure(_) => None,
    }
}

/// Who runs the word's blocks.
pub(crate) fn runner(what: What) -> Runner
    ensures { result ≡ runner_by (row_of_what what) }
{
    match rule(what) {
        Some(entry) => entry.blocks,
        None => Runner::NoBlock,
    }
}

/// Whether the agent that runs the word runs its blocks too.
pub(crate) fn runs_itself(what: What) -> bool
    ensures { result ≡ is_same (runner_by (row_of_what what)) }
{
    matches!(runner(what), Runner::Same)
}

/// How the variable stands there that the word names.
pub(crate) fn manner(what: What) -> Manner
    ensures { result ≡ manner_by (row_of_what what) }
{
    match rule(what) {
        Some(entry) => entry.manner,
        None => Manner::Run,
    }
}

/// Whether the word is a variable that no text sets.
pub(crate) fn is_fixed(what: What) -> bool
    ensures { result ≡ fixed_by (row_of_what what) }
{
    match rule(what) {
        Some(entry) => entry.fixed,
        None => false,
    }
}

/// Whether an agent leaves its procedure with the word.
pub(crate) fn leaving(what: What) -> Leaving
    ensures { result ≡ leaving_by (row_of_what what) }
{
    match rule(what) {
        Some(entry) => entry.leaving,
        None => Leaving::Stays,
    }
}

/// Whether the word stands between its inputs.
pub(crate) fn is_operator(role: Role) -> bool
    ensures { result ≡ is_operator role }
{
    matches!(role, Role::Operator(_))
}

/// Whether the word is an operator of level 1, whose agents are on its left.
pub(crate) fn is_nearest(role: Role) -> bool
    ensures { result ≡ is_nearest role }
{
    matches!(role, Role::Operator(1))
}

/// What the word reads at a place: an input of its row or, after these, one of its further values; nothing past them.
pub(crate) fn input_at(word: &Word, at: usize) -> Option<Input>
    ensures { result ≡ slice_get (inputs_of (named [] word.now)) at }
{
    if at < word.inputs.len() {
        return Some(word.inputs[at]);
    }
    if at - word.inputs.len() < word.values as usize {
        return Some(Input::Value);
    }
    None
}
