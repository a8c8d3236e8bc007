//! Levels of nodes that are under way, and the steps that they take until a unit is wanted.
#![tactic(auto)]

mod begins;
pub mod focus;
mod hurry;
pub mod levels;
mod often;
pub mod run;
