//! Trials of what every crate stands on: numbers, texts and lists of texts, the words of the language, the geometry of the world.
#![tactic(auto)]

#[cfg(test)]
mod arithmetic;
#[cfg(test)]
mod geometry;
#[cfg(test)]
mod sines;
#[cfg(test)]
mod spelling;
#[cfg(test)]
mod texts;
#[cfg(test)]
mod words;
