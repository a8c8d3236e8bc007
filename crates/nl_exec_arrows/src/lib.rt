//! Words whose block the same agent runs or evaluates in turns: `foreach`, `map`, `filter`, `reduce`, `sort-by` and `n-values`.
#![tactic(auto)]

pub mod beginning;
pub mod finishing;
pub mod giving;
pub mod inputs;
pub mod laws;
pub mod lists;
pub mod orders;
pub mod rounds;
pub mod telling;
