//! What a model declares, with the rows of the words that its declarations make.
#![tactic(auto)]

pub mod accepted_law;
mod claims;
pub mod declaring;
mod gathering;
pub mod index;
pub mod laws;
mod ledger;
pub mod made;
mod marks;
mod name_set;
pub mod refusal;
mod variables;

pub use declaring::declare;
pub use index::index_of;
pub use made::{MadeWord, made_name, made_words};
pub use nl_tree::{Word, word};
pub use refusal::{DeclKind, DeclRefusal};
