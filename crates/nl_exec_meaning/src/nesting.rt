//! How deep nodes may be evaluated in each other.

/// How deep nodes may be evaluated in each other. A lone text's own node has the nesting 1, a part of a node one more than the node, and the
/// body of a procedure one more than its call. The number is this project's own choice.
pub const NESTING_LIMIT: usize = 200_000;
