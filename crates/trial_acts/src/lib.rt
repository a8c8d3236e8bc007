//! Trials of acts over each store that there is.
#![tactic(auto)]

#[cfg(test)]
mod crowds;
#[cfg(test)]
mod deeds;
#[cfg(test)]
mod given;
#[cfg(test)]
mod moves;
#[cfg(test)]
mod told;
#[cfg(test)]
mod words;
