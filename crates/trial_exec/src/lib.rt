//! Trials of the machine: texts of models, over each store that there is.
#![tactic(auto)]

#[cfg(test)]
mod at_once;
#[cfg(test)]
mod births;
#[cfg(test)]
mod calling;
#[cfg(test)]
mod commands;
#[cfg(test)]
mod crowds;
#[cfg(test)]
mod deaths;
#[cfg(test)]
mod fire;
#[cfg(test)]
mod limits;
#[cfg(test)]
mod playing;
#[cfg(test)]
mod rows;
#[cfg(test)]
mod short;
#[cfg(test)]
mod statements;
#[cfg(test)]
mod walks;
