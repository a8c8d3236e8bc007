//! Records of agents, under keys, with the places that a record has in chains of records.
#![tactic(auto)]

pub mod fields;
pub mod packed;
pub mod places;
pub mod record;
pub mod records;

pub use fields::{Body, Fields};
pub use packed::PackedBorder;
pub use places::{Border, place_at, set_next, set_place, set_previous};
pub use record::{Place, Record};
pub use records::Records;
