//! Trials of runs: models and experiments, and the rows that they give over each store that there is.
#![tactic(auto)]

#[cfg(test)]
mod budgets;
#[cfg(test)]
mod conditions;
#[cfg(test)]
mod draws;
#[cfg(test)]
mod errors;
#[cfg(test)]
mod fire;
#[cfg(test)]
mod lines;
#[cfg(test)]
mod long;
#[cfg(test)]
mod measures;
#[cfg(test)]
mod playing;
#[cfg(test)]
mod rows;
#[cfg(test)]
mod settings;
#[cfg(test)]
mod steps;
