//! Variables that texts read and set: locals, global variables, and those of agents.
#![tactic(auto)]

pub mod apart;
pub mod setting;
pub mod variables;
