//! Turns of agents, and what is made of the answers of members.
#![tactic(auto)]

pub mod agents;
pub mod answering;
pub mod extremes;
pub mod finishing;
pub mod lists;
pub mod living;
pub mod making;
pub mod orders;
pub mod replies;
pub mod sets;
pub mod several;
pub mod walking;
