//! Values that are had at once.
ghost use Rattle.std.specs.Prelude.{◌≡◌, IsTrue, IfSome};
ghost use Rattle.nl_value.specs.Views.{plain};
ghost use Rattle.nl_exec_meaning.specs.Ground.{Ground, fits};
ghost use Rattle.nl_exec_meaning.specs.Standing.{HandsFit};
ghost use Rattle.nl_exec_short.specs.Had.{IsHad, short_plain};
ghost use Rattle.nl_exec_short.specs.declared.values.TheConstants.{VALUE_NESTED as value_nested};

use crate::numbers::number;
use crate::truths::truth;
use nl_agents::Store;
use nl_agentset_query::words::{OfSet, QueryWord};
use nl_exec_acts::Act;
use nl_exec_meaning::{Built, Code, Hands, Op};
use nl_fixed::Num;
use nl_listops::ValueWord;
use nl_value::Value;

/// So many nodes at most stand in each other in a node whose value is had at once.
pub const VALUE_NESTED: usize = 9;

/// A value that is had at once.
#[derive(Clone, Copy)]
pub enum ShortValue {
    Truth(bool),
    Number(Num),
}

impl ShortValue {
    /// The same as any value. It fits every world.
    #[inline(always)]
    pub fn value(&self) -> Value
        ensures is { plain result ≡ short_plain self.now }
        ensures fits { (g : Ground) → IsTrue (fits g (plain result)) }
    {
        match self {
            ShortValue::Truth(truth) => Value::Truth(*truth),
            ShortValue::Number(number) => Value::Number(*number),
        }
    }
}

// The truth that a node gives, where it is had at once, as a value.
#[inline(always)]
fn short_truth<S: Store>(code: &Code, hands: &Hands<S>, node: u32) -> Option<ShortValue>
    requires { HandsFit hands.now }
    ensures { IfSome result (λ short. IsHad code.now hands.now node value_nested (short_plain short)) }
{
    match truth(code, hands, node) {
        Some(truth) => Some(ShortValue::Truth(truth)),
        None => None,
    }
}

// The number that a node gives, where it is had at once, as a value.
#[inline(always)]
fn short_number<S: Store>(code: &Code, hands: &Hands<S>, node: u32) -> Option<ShortValue>
    requires { HandsFit hands.now }
    ensures { IfSome result (λ short. IsHad code.now hands.now node value_nested (short_plain short)) }
{
    match number(code, hands, node) {
        Some(number) => Some(ShortValue::Number(number)),
        None => None,
    }
}

/// The truth or the number that a node gives, where it is had at once.
#[inline(always)]
pub fn short_value<S: Store>(code: &Code, hands: &Hands<S>, node: u32) -> Option<ShortValue>
    requires { HandsFit hands.now }
    ensures { IfSome result (λ short. IsHad code.now hands.now node value_nested (short_plain short)) }
{
    match short_truth(code, hands, node) {
        Some(short) => Some(short),
        None => short_number(code, hands, node),
    }
}

/// The same of a word of numbers, a comparison, `not`, `count` and `any?`, and of what stands in parentheses. Any other node has no value here.
#[inline(always)]
pub fn value_of_word<S: Store>(code: &Code, hands: &Hands<S>, node: u32) -> Option<ShortValue>
    requires { HandsFit hands.now }
    ensures { IfSome result (λ short. IsHad code.now hands.now node value_nested (short_plain short)) }
{
    match code.op(node) {
        Op::Inside => short_value(code, hands, node),
        Op::Word {
            word: Built::Act(act),
            ..
        } => match act {
            Act::Value(ValueWord::OfNumbers(_)) | Act::Query(QueryWord::OfSet(OfSet::Count)) => {
                short_number(code, hands, node)
            }
            Act::Value(ValueWord::Compare(_) | ValueWord::Not)
            | Act::Query(QueryWord::OfSet(OfSet::Any)) => short_truth(code, hands, node),
            _ => None,
        },
        _ => None,
    }
}
