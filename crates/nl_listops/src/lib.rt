//! The words of values: arithmetic, truths, comparisons, kinds, lists, texts, statistics, colors and draws, by the codes of their rows.
#![tactic(auto)]

pub mod answers;
mod draws;
mod inputs;
mod kinds;
mod many;
mod numbers;
mod series;
mod shades;
mod statistics;
mod truths;
pub mod words;

pub use answers::apply;
pub use nl_listops_series::ListFail;
pub use words::{ValueWord, value_word};
