//! What each node of a text does, one small function for each step of its case: all but variables, walks over sets, and births with blocks.
#![tactic(auto)]

pub mod acting;
pub mod blocks;
pub mod calls;
pub mod choices;
pub mod loops;
pub mod moving;
pub mod parts;
pub mod performing;
