//! Trials of what a machine holds and of what it makes of all answers of a set's members.
#![tactic(auto)]

#[cfg(test)]
mod answers;
#[cfg(test)]
mod frames;
