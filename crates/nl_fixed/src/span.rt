//! Places in a text.

/// A run of bytes of one source text: where it begins, counted from 0, and how many bytes it has.
#[derive(Clone, Copy, Debug, PartialEq, Eq)]
pub struct Span {
    pub start: u32,
    pub len: u32,
}
