//! The machine: it runs texts over a store, and stops at any unit.
#![tactic(auto)]

pub mod endings;
pub mod phase;
pub mod sliced;
pub mod slices;

pub use endings::End;
pub use sliced::{begin_in_slices, run_in_slices};
pub use slices::{Machine, Turn};
