//! What stands at the keys of a table of TOML, and the literals that texts hold.
#![tactic(auto)]

pub mod document;
pub mod faults;
pub mod laws;
pub mod literals;
mod nested;
pub mod rows;
pub mod tables;
pub mod values;

pub use document::{FILE_LIMIT, table_of};
pub use faults::{KeyFault, KeyRefusal, PlanKind};
pub use literals::{literal, number, whole};
pub use rows::{TextKey, TruthKey, WholeKey};
