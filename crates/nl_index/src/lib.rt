//! Chains of the records of agents: by birth, by patch and by breed.
#![tactic(auto)]

pub mod chains;
pub mod homes;
pub mod laws;
pub mod row;

pub use chains::{Chain, Chains};
