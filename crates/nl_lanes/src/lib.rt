//! Runs that take turns: a pool of lanes, each of which works on one run at a time.
#![tactic(auto)]

pub mod held;
pub mod lane;
pub mod laws;
pub mod pool;
pub mod rounds;

pub use lane::{Lane, LaneTurn, Maker};
pub use pool::Pool;
pub use rounds::{LanesFail, drive};
