//! What a variable of agents may hold.

/// What a variable may hold. A value of another kind is refused where it is set.
#[derive(Clone, Copy, Debug, PartialEq, Eq)]
pub enum Rule {
    /// A number, kept as a color: moved by whole 140s from 0 up to below 140.
    Color,
    /// A number, kept as a heading: moved by whole turns from 0 up to below 360 degrees.
    Heading,
    /// A number.
    Number,
    /// A truth.
    Truth,
    /// A text.
    Words,
    /// Any value.
    Anything,
}
