//! Trials of texts whose names were looked up, over models that are read from text.
#![tactic(auto)]

#[cfg(test)]
mod long;
#[cfg(test)]
mod looks;
#[cfg(test)]
mod reading;
#[cfg(test)]
mod resolved;
