//! The store of one list: agents in the order of their serials.
#![tactic(auto)]

mod bearing;
mod changing;
mod clearing;
mod copying;
mod filling;
mod finding;
mod globals;
mod links;
pub mod plain;

pub use plain::Plain;
