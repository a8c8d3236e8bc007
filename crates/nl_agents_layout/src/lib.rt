//! Layouts: which variables a model's agents have, under which slots, and who owns them.
#![tactic(auto)]

pub mod built_in;
pub mod layout;
mod numbering;
pub mod rule;
pub mod slot_laws;
pub mod slots;

pub use built_in::{COLOR, HEADING, rule_of};
pub use layout::{BreedLayout, BreedLayouts, Layout};
pub use rule::Rule;
pub use slots::Slots;
