//! Motion of turtles, and what patches give to each other.
#![tactic(auto)]

pub mod climbing;
pub mod diffusion;
pub mod faults;
pub mod laws;
mod numbers;
mod ring;
pub mod steps;
#[cfg(test)]
mod tests;

pub use climbing::climb;
pub use diffusion::diffuse;
pub use faults::MoveFault;
pub use steps::{place, step};
