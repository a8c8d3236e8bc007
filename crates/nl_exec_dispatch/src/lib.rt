//! Which case a node or a frame is: what begins a node, and what goes on with a frame.
#![tactic(auto)]

pub mod dispatch;

// The steps of the cases that come most often, for who takes them without a choice.
pub use nl_exec_cases::{blocks, choices, loops, parts};
pub use nl_exec_variables::{setting, variables};
pub use nl_exec_walks::walking;
