//! Values of the language: numbers, truths, texts, lists, agents and sets of agents, with their equality, order, text and
//! size.
#![tactic(auto)]

pub mod colors;
pub mod equality;
pub mod laws;
pub mod life;
pub mod measures;
pub mod order;
pub mod sets;
pub mod sorting;
pub mod texts;
pub mod values;

pub use life::{Life, NoLife};
pub use order::OrderKind;
pub use sets::{AgentKind, AgentSet, Serials};
pub use values::{Items, Value};
