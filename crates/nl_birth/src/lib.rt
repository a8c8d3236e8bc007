//! Births of turtles and the making of links, over every store.
#![tactic(auto)]

pub mod births;
pub mod failing;
pub mod laws;
pub mod linking;
pub mod looks;
pub mod way;

pub use births::{create, hatch, sprout};
pub use failing::BirthFail;
pub use linking::{link, link_one};
pub use way::Way;
