//! The sweep of an experiment: what is varied, how many runs there are, and the settings, the seed and the world of each.
#![tactic(auto)]

pub mod bounds;
pub mod laws;
pub mod order;
pub mod run_settings;
pub mod varied;
pub mod worlds;

pub use bounds::all_have_worlds;
pub use order::{MOST_RUNS, Order, runs};
pub use run_settings::{seed, settings};
pub use varied::{Choice, Setting, Settings, Varies, Vary};
pub use worlds::{World, shape};

#[cfg(test)]
mod tests;
