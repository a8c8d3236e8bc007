//! The laws of the grammar, and the tokens of a text as it speaks of them.
#![tactic(auto)]

pub mod laws;
pub mod pending;
pub mod token_laws;

pub use pending::{Last, Shape};
