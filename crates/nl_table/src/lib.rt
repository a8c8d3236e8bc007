//! The text of a table: its header, lines of cells, and the pieces of a part of one.
#![tactic(auto)]

pub mod headers;
pub mod laws;
pub mod lines;
pub mod pieces;
pub mod reach;
pub mod reading;

pub use headers::header;
pub use lines::{Record, line};
pub use pieces::piece_end;
pub use reach::{Reach, reach_of};
pub use reading::cells;
