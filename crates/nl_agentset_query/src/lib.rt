//! What queries stand on, over every store: the members of sets, which query a word is and its inputs, choices and unions.
#![tactic(auto)]

pub mod agents;
pub mod choices;
pub mod choosing;
pub mod fail;
pub mod inputs;
pub mod laws;
pub mod near;
pub mod orders;
pub mod unions;
pub mod walk;
pub mod words;

pub use choices::chosen_by;
pub use choosing::{living, one_of, snapshot};
pub use fail::QueryFail;
pub use near::{in_cone, in_radius};
pub use unions::union_of;
pub use walk::Walk;
pub use words::{QueryWord, query_word};
