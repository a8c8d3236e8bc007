//! Trials of chains: turtles and links that are filed, moved and taken out, and what each chain holds then.
#![tactic(auto)]

pub mod filing;
#[cfg(test)]
mod tests;

pub use filing::Filing;

#[cfg(test)]
mod hints;
#[cfg(test)]
mod records;
