//! Lists that are gone through, as values.
ghost use Rattle.std.specs.Prelude.{◌≡◌, ◌==◌, length, map, option_map, slice_get};
ghost use Rattle.std.specs.List.{list_all};
ghost use Rattle.std.specs.Option.{option_copied};
ghost use Rattle.nl_value.specs.Views.{plain};
ghost use Rattle.nl_exec_meaning.specs.Rounds.{listed, lists_of};
ghost use Rattle.nl_exec_arrows.specs.Lists.{is_list};

use nl_value::Value;

/// Whether a value is a list.
#[inline]
pub fn is_list(value: &Value) -> bool
    ensures { result ≡ is_list (plain value.now) }
{
    match value {
        Value::Items(_) => true,
        _ => false,
    }
}

/// The item of a list at a place, counted from 0.
#[inline(always)]
pub fn item_of(value: &Value, at: usize) -> Option<&Value>
    ensures { option_map plain (option_copied result) ≡ slice_get (listed (plain value.now)) at }
{
    match value {
        Value::Items(items) => items.get(at),
        _ => None,
    }
}

/// How many items a list has.
#[inline]
pub fn length_of(value: &Value) -> usize
    ensures { result ≡ length (listed (plain value.now)) }
{
    match value {
        Value::Items(items) => items.len(),
        _ => 0,
    }
}

/// Whether all values are lists.
pub fn all_are_lists(values: &[Value]) -> bool
    ensures { result ≡ list_all is_list (map plain values.now) }
{
    for value in values {
        if !is_list(value) {
            return false;
        }
    }
    true
}

/// Whether all lists have so many items.
pub fn all_have_length(values: &[Value], many: usize) -> bool
    ensures { result ≡ list_all (λ xs. length xs == many) (lists_of (map plain values.now)) }
{
    for value in values {
        if length_of(value) != many {
            return false;
        }
    }
    true
}
