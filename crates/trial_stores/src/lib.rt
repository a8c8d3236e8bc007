//! Stores of agents under trial: calls and questions as plain data, played on any store.
//!
//! No call of the program stands on this crate: tests of other crates do, and each store runs the same tables.
#![tactic(auto)]

pub mod asking;
pub mod naming;
pub mod playing;
pub mod trial_model;
pub mod trials;

pub use trials::Tried;
