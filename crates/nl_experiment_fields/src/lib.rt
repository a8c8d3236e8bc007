//! The fields of an experiment's file: its keys, its world, its global variables, and what it varies.
#![tactic(auto)]

pub mod choices;
pub mod entries;
pub mod fields;
pub mod globals;
mod keys;
pub mod laws;
pub mod literals;
pub mod names;
mod numbers;
pub mod worlds;

pub use fields::{Fields, fields_of};
