//! Trials of the fields of an experiment's file: documents with what they give, and with each of their faults.
#![tactic(auto)]

#[cfg(test)]
mod documents;
#[cfg(test)]
mod faults;
