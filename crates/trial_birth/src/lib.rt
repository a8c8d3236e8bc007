//! Trials of births, of the making of links and of crowds over each store that there is.
#![tactic(auto)]

#[cfg(test)]
mod births;
#[cfg(test)]
mod broods;
#[cfg(test)]
mod crowds;
#[cfg(test)]
mod links;
#[cfg(test)]
mod making;
#[cfg(test)]
mod wanting;
