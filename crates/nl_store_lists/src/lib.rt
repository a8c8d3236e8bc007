//! Lists of keys that stand after each other, and of numbered items under keys: laws alone.
#![tactic(auto)]

pub mod laws;
