//! The built-in words of the language: one table, found by name.
#![tactic(auto)]

pub mod base;
pub mod codes;
pub mod entry;
pub mod words;

pub use base::{ROWS, base_words};
pub use entry::{Entry, Input, Kinds, Leaving, Manner, Role, Runner, Turns};
pub use words::Words;
