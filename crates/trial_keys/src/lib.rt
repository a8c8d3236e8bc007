//! Trials of what an experiment and a table are made of: keys, literals, lines and made texts. Trials of lanes stand here too, since the crate
//! stands low.
#![tactic(auto)]

#[cfg(test)]
mod benches;
#[cfg(test)]
mod keys;
#[cfg(test)]
mod lanes;
pub mod lanes_plan;
#[cfg(test)]
mod literals;
#[cfg(test)]
mod pieces;
#[cfg(test)]
mod reach;
#[cfg(test)]
mod tables;
