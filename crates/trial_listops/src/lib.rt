//! Trials of the random stream, and of the words of values: rows of inputs and answers, where nothing lives.
#![tactic(auto)]

#[cfg(test)]
mod draw_laws;
#[cfg(test)]
mod draws;
#[cfg(test)]
mod rows;
#[cfg(test)]
mod words;
