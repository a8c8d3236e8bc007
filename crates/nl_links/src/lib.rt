//! Chains of links, found by the turtles that they join.
#![tactic(auto)]

pub mod ends;
pub mod guesses;
pub mod joining;
pub mod laws;
pub mod sides;

pub use ends::Ends;
