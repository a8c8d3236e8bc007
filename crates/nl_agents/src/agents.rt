//! Agents as a store keeps them.
use crate::variables::Variables;
use nl_grid::Point;

/// A turtle. Its serial is never used again; its breed is 0 where it is of no breed.
#[derive(Drop)]
pub struct Turtle {
    pub serial: u64,
    pub breed: u32,
    pub at: Point,
    pub vars: Variables,
}

/// A link from its first end to its second. Which end of one without a direction comes first is left to who makes it; the words of the
/// language put the lower serial first.
#[derive(Drop)]
pub struct Link {
    pub serial: u64,
    pub breed: u32,
    pub directed: bool,
    pub end1: u64,
    pub end2: u64,
    pub vars: Variables,
}

/// Whose variable it is: a global one, or that of a turtle or a link by its serial, or of a patch by its number.
#[derive(Clone, Copy, PartialEq, Eq, Debug)]
pub enum Owner {
    Observer,
    Turtle(u64),
    Patch(u32),
    Link(u64),
}
