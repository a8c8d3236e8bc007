//! What is known of an agent.
use nl_agents::Variables;
use nl_grid::Point;

/// What an agent is: a turtle at a point, or a link from its first end to its second, which are serials of turtles.
#[derive(Clone, Copy, PartialEq, Debug)]
pub enum Body {
    Turtle(Point),
    Link {
        directed: bool,
        end1: u64,
        end2: u64,
    },
}

/// What is known of a turtle or a link. Its breed is 0 where it is of no breed. Its variables have one entry for each slot that an agent of
/// its kind can own, so that a change of breed takes no memory.
#[derive(Drop)]
pub struct Fields {
    pub serial: u64,
    pub body: Body,
    pub breed: u32,
    pub vars: Variables,
}
