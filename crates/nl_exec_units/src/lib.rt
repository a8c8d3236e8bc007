//! What further units change of what a text comes to: laws alone.
#![tactic(auto)]

pub mod laws;
