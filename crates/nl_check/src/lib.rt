//! Which programs and lone texts are right: who may run each word, what can be set, and where `report` and `stop` may stand.
#![tactic(auto)]

mod body;
mod calls;
pub mod checking;
mod faults;
mod gather;
mod given;
mod kinds;
pub mod laws;
mod reach;
pub mod refusal;
mod rows;
mod step;
mod words;

pub use checking::{check, check_text};
pub use nl_tree::CheckKind;
pub use refusal::CheckRefusal;

#[cfg(test)]
mod tests;
