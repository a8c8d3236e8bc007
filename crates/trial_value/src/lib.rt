//! Trials of values and of the slots of variables: values compared, ordered, printed and measured beside a small world.
#![tactic(auto)]

#[cfg(test)]
mod layouts;
#[cfg(test)]
mod sharing;
#[cfg(test)]
mod small_world;
#[cfg(test)]
mod values;
