//! What short expressions give, had at once, without frames: numbers, truths, and how many agents there are.
//!
//! Whatever is out of the ordinary isn't had here: then nothing is changed, and the machine goes its usual way.
#![tactic(auto)]

pub mod draws;
pub mod members;
pub mod numbers;
pub mod running;
pub mod truths;
pub mod values;

// Variables, for who sets them to what is had at once.
pub use nl_exec_variables::variables;
