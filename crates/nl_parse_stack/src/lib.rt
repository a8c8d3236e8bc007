//! The reader of texts between two tokens: its stack, what it asks of it, and trees handed to what waits for them.
#![tactic(auto)]

pub mod around;
pub mod asking;
pub mod handing;
pub mod reader;
