//! Trials of models, lone texts and experiments, each with what it is and with each kind of its faults; and of the trees of texts.
#![tactic(auto)]

#[cfg(test)]
mod experiments;
#[cfg(test)]
mod lone;
#[cfg(test)]
mod models;
#[cfg(test)]
mod readings;
#[cfg(test)]
mod texts;
#[cfg(test)]
mod trees;
