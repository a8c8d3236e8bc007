//! What a world has beside its turtles and links: its shape, its layout, its global variables and its patches.
#![tactic(auto)]

pub mod globals;
pub mod ground;
pub mod patches;

pub use ground::Ground;
