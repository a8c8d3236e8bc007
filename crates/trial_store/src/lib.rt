//! Trials of every store of agents by its own calls: tables that run over each store that there is.
#![tactic(auto)]

#[cfg(test)]
mod bundles;
#[cfg(test)]
mod keeping;
#[cfg(test)]
mod stores;
#[cfg(test)]
mod ties;
#[cfg(test)]
mod views;
#[cfg(test)]
mod wanting;
