//! Texts that are written in pieces.

use crate::values::{items, number_at, text_at};
use std::alloc::Global;
use toml::{Table, Value};

/// The bytes at a key: a text, or a list of pieces. A piece is a text, `{ byte = N }`, or `{ text = T, times = N }` for a text that stands there so often; in that `#` is how
/// many there were before, and `%` one more. None where the key is left out.
pub fn bytes_at(alloc: Global, table: &Table, key: &str) -> Option<Vec<u8>> {
    match table.get(key) {
        Some(value) => bytes_of(alloc, value),
        None => Some(Vec::new(alloc)),
    }
}

/// The bytes that a value is.
pub fn bytes_of(alloc: Global, value: &Value) -> Option<Vec<u8>> {
    let mut bytes = Vec::new(alloc);
    if let Some(text) = value.as_str() {
        bytes.extend_from_slice(text.as_bytes()).ok()?;
        return Some(bytes);
    }
    for piece in items(value)? {
        push_piece(alloc, &mut bytes, piece)?;
    }
    Some(bytes)
}

fn push_piece(alloc: Global, bytes: &mut Vec<u8>, piece: &Value) -> Option<()> {
    match piece.as_str() {
        Some(text) => bytes.extend_from_slice(text.as_bytes()).ok(),
        None => push_made(alloc, bytes, piece.as_table()?),
    }
}

fn push_made(alloc: Global, bytes: &mut Vec<u8>, piece: &Table) -> Option<()> {
    if let Some(byte) = number_at(piece, "byte") {
        return bytes.push(u8::try_from(byte).ok()?).ok();
    }
    let text = text_at(piece, "text")?;
    let times = number_at(piece, "times")?;
    if text.find('#').is_some() || text.find('%').is_some() {
        return push_numbered(alloc, bytes, text, times);
    }
    let all = text.repeat(alloc, usize::try_from(times).ok()?).ok()?;
    bytes.extend_from_slice(all.as_bytes()).ok()
}

fn push_numbered(alloc: Global, bytes: &mut Vec<u8>, text: &str, times: u64) -> Option<()> {
    for before in 0..times {
        let numbered = numbered(alloc, text, before)?;
        bytes.extend_from_slice(numbered.as_bytes()).ok()?;
    }
    Some(())
}

fn numbered(alloc: Global, text: &str, before: u64) -> Option<String> {
    let after = before.saturating_add(1);
    let front = format!(in alloc; "{before}").ok()?;
    let behind = format!(in alloc; "{after}").ok()?;
    let text = text.replace(alloc, '#', front.as_str()).ok()?;
    text.as_str().replace(alloc, '%', behind.as_str()).ok()
}
