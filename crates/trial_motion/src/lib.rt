//! Trials of motion, climbs and diffusion over each store that there is.
#![tactic(auto)]

#[cfg(test)]
mod climbs;
#[cfg(test)]
mod fields;
#[cfg(test)]
mod gifts;
#[cfg(test)]
mod moves;
