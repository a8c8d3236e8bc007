//! The model and the experiment by which the program is measured.
#![tactic(auto)]

pub mod texts;

pub use texts::{experiment, model};
