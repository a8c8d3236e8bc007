//! The reader of texts: a body of statements, or one expression.
#![tactic(auto)]

mod beginning;
pub mod body;
mod closing;
mod heads;
mod kinds;
mod stating;
mod steps;

pub use body::{BodyRefusal, read_body};
pub use nl_tree::BodyKind;
