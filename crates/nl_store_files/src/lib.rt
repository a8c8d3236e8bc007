//! The records of turtles and links, with their chains, found by serial.
#![tactic(auto)]

pub mod changing;
pub mod filing;
pub mod filling;
pub mod keys;
pub mod looking;
pub mod registry;
pub mod walk;

pub use registry::Registry;
