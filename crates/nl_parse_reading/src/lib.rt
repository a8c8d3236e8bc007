//! What the reader of texts works with: tokens with the classes of their words, trees beside their depth, and what is open.
#![tactic(auto)]

pub mod classes;
pub mod depths;
pub mod frames;
pub mod known;
pub mod known_names;
pub mod marks;
pub mod parts;
