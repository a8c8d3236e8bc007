//! The laws of choices, called.

use nl_agentset_query::laws::{some_keep_their_order, some_members_differ};

#[test]
fn laws_hold_of_lists_of_texts() {
    some_keep_their_order::<&str>();
    some_members_differ();
}
