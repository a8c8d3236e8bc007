//! What further units change of what a run comes to: laws alone.
#![tactic(auto)]

pub mod laws;
