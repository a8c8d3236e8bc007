//! The store by records.
#![tactic(auto)]

pub mod births;
pub mod census;
pub mod copying;
pub mod indexed;
pub mod roster;

pub use indexed::Indexed;
pub use roster::Roster;
