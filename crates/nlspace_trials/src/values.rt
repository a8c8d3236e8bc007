//! What stands in a table of a file of trials.

use toml::{Table, Value};

/// The text at a key.
pub fn text_at<'a>(table: &'a Table, key: &str) -> Option<&'a str> {
    table.get(key)?.as_str()
}

/// The text at a key, or none where it is left out.
pub fn text_or_empty<'a>(table: &'a Table, key: &str) -> &'a str {
    text_at(table, key).unwrap_or("")
}

/// The number at a key.
pub fn number_at(table: &Table, key: &str) -> Option<u64> {
    number(table.get(key)?)
}

/// The number that a value is.
pub fn number(value: &Value) -> Option<u64> {
    u64::try_from(value.as_integer()?).ok()
}

/// The items of the list at a key; none where it is left out.
pub fn items_at<'a>(table: &'a Table, key: &str) -> &'a [Value] {
    match table.get(key) {
        Some(value) => items(value).unwrap_or(&[]),
        None => &[],
    }
}

/// The items of a list.
pub fn items(value: &Value) -> Option<&[Value]> {
    Some(value.as_array()?.as_slice())
}

/// The text at a place of a row.
pub fn text_in(row: &Value, place: usize) -> Option<&str> {
    items(row)?.get(place)?.as_str()
}
