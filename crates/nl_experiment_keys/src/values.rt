//! One value of a table.
ghost use Rattle.std.specs.Prelude.{◌≡◌, ◌≤ℤ◌, IfOk, option_map};
ghost use Rattle.std.specs.Result.{result_map_both};
ghost use Rattle.toml.specs.Data.{get_member};
ghost use Rattle.toml.specs.View.{table_view, view};
ghost use Rattle.nl_experiment_keys.specs.Reading as spec;

use crate::faults::PlanKind;
use toml::{Table, Value};

/// What stands at a key.
pub fn value_at<'a>(table: &'a Table, key: &str) -> Option<&'a Value>
    ensures { option_map (λ value. view value.now) result
        ≡ get_member key.now (table_view table.now) }
{
    table.get(key)
}

/// What a value of another kind than the wanted one is told as.
pub fn other_kind(value: &Value) -> PlanKind
    ensures { result ≡ spec.other_kind (view value.now) }
{
    match value {
        Value::Float(_) => PlanKind::FloatValue,
        _ => PlanKind::WrongKind,
    }
}

/// A whole number within bounds.
pub fn whole_in(least: i64, most: i64, value: &Value) -> Result<i64, PlanKind>
    ensures value { result ≡ spec.whole_in least most (view value.now) }
    ensures least { IfOk result (λ number. least ≤ℤ number) }
    ensures most { IfOk result (λ number. number ≤ℤ most) }
{
    match value.as_integer() {
        Some(number) => {
            if least <= number && number <= most {
                Ok(number)
            } else {
                Err(PlanKind::BadLiteral)
            }
        }
        None => Err(other_kind(value)),
    }
}

/// A truth.
pub fn truth_in(value: &Value) -> Result<bool, PlanKind>
    ensures { result ≡ spec.truth_in (view value.now) }
{
    match value.as_bool() {
        Some(truth) => Ok(truth),
        None => Err(other_kind(value)),
    }
}

/// A text.
pub fn text_in(value: &Value) -> Result<&str, PlanKind>
    ensures { result_map_both (λ text. text.now) (λ kind. kind) result
        ≡ spec.text_in (view value.now) }
{
    match value.as_str() {
        Some(text) => Ok(text),
        None => Err(other_kind(value)),
    }
}
