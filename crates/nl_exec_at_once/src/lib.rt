//! What is done at once, without frames: statements, those of a block that an `if` chooses among them, turns of blocks of such statements, and
//! answers of members.
//!
//! Whatever is out of the ordinary isn't done here: then nothing is changed, and the machine goes its usual way.
#![tactic(auto)]

pub mod answers;
pub mod linking;
pub mod moving;
pub mod repeats;
pub mod setting;
pub mod statements;
pub mod turns;
pub mod walking;

// Values that are had at once, for who begins a node.
pub use nl_exec_short::values;
