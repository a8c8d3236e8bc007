//! The declarations of a text, as they are read token by token.
#![tactic(auto)]

pub mod declaration;
pub mod laws;
mod mode;
mod owners;
pub mod reading;
pub mod refusal;

pub use declaration::{Declaration, Owner, Sort};
pub use reading::outline;
pub use refusal::OutlineRefusal;
