//! Lists and texts by their items and characters: parts, places, joins, searches, sorts and ranges.
#![tactic(auto)]

mod digests;
pub mod fail;
mod firsts;
pub mod laws;
pub mod lists;
pub mod occurrences;
mod places;
pub mod ranges;
pub mod repeats;
pub mod searches;
pub mod sorts;
pub mod statistics;
pub mod texts;

pub use fail::ListFail;
