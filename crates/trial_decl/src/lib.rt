//! Trials of what a model's text is read as: tokens, declarations, the index of its words.
#![tactic(auto)]

#[cfg(test)]
mod declarations;
#[cfg(test)]
mod indexes;
#[cfg(test)]
mod outlines;
#[cfg(test)]
mod scanning;
