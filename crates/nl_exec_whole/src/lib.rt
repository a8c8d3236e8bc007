//! Laws of texts that are read: they say that no text meets what a definition of its meaning has only to be total.
#![tactic(auto)]

pub mod laws;
