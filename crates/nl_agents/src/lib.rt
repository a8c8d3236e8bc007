//! Agents: the plain world of turtles, patches, links and global variables, and what a store of them is.
#![tactic(auto)]

pub mod agents;
pub mod keeping;
pub mod laws;
pub mod refusals;
pub mod steps;
pub mod store;
pub mod variables;
pub mod view;

pub use agents::{Link, Owner, Turtle};
pub use nl_agents_layout::{
    BreedLayout, BreedLayouts, COLOR, HEADING, Layout, Rule, Slots, rule_of,
};
pub use refusals::{BearFail, TieFail};
pub use steps::Steps;
pub use store::Store;
pub use variables::Variables;
pub use view::View;
