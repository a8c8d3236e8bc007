//! An experiment's file in format 2.
#![tactic(auto)]

pub mod laws;
mod migrate;
mod sorted;
mod tables;
#[cfg(test)]
mod tests;

pub use migrate::migrated;
