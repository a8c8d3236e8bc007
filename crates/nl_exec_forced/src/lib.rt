//! That what a machine answers to so many units is forced by what it holds: laws alone.
#![tactic(auto)]

pub mod laws;
