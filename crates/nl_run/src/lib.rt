//! One run of an experiment: its course, unit by unit, and its rows.
#![tactic(auto)]

pub mod errors;
pub mod laws;
pub mod measures;
pub mod phase;
pub mod plan;
pub mod progress;
pub mod rows;
pub mod run;
pub mod settle;
pub mod start;
pub mod work;

pub use rows::{Row, Rows, RunEnd};
pub use run::{Run, RunTurn};
