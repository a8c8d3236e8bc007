//! Trials of queries over each store that there is.
#![tactic(auto)]

#[cfg(test)]
mod asking;
#[cfg(test)]
mod beside;
#[cfg(test)]
mod choices;
#[cfg(test)]
mod crowds;
#[cfg(test)]
mod dead;
#[cfg(test)]
mod giving;
#[cfg(test)]
mod laws;
#[cfg(test)]
mod links;
#[cfg(test)]
mod measures;
#[cfg(test)]
mod narrow;
#[cfg(test)]
mod near;
#[cfg(test)]
mod places;
#[cfg(test)]
mod sets;
#[cfg(test)]
mod ways;
