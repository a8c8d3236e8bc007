//! The program: from words and files to a table and a line.
#![tactic(auto)]

mod ends;
mod job;
pub mod laws;
mod rows;
mod summary;
mod table;
mod tasks;
mod told;
mod top;
mod words;

pub use ends::Status;
use nl_scan::TEXT_LIMIT;
pub use top::run;

/// A model or an experiment of more bytes is refused.
pub(crate) const FILE_LIMIT: u64 = TEXT_LIMIT as u64;
