//! The random stream of a run: draws and shuffles.
#![tactic(auto)]

pub mod laws;
pub mod stream;

pub use stream::{Mark, Stream};
