//! Queries: the words that answer agents, sets of agents and what is told of where they stand, by the codes of their rows.
//!
//! Each family of words, an enum of `nl_agentset_query`, has a call that answers it. An input of another kind than the word takes, and a missing one,
//! is WrongType, from left to right; then come the word's own errors in their order. Inputs behind those that the word takes aren't looked
//! at. A breed's word has the code of the word without a breed, and its breed. A dead caller is passed as the observer. A query never
//! changes the world: it has the store as a shared borrow.
#![tactic(auto)]

pub mod laws;
pub mod links;
pub mod lookups;
pub mod measures;
pub mod patches;
pub mod queries;
pub mod sets;
pub mod standing;

pub use nl_agentset_query::{
    QueryFail, QueryWord, Walk, in_cone, in_radius, living, one_of, query_word, snapshot, union_of,
};
pub use queries::{answer, query};
