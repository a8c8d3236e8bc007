//! Trees of texts, the names that a model declares, and the checked program.
#![tactic(auto)]

pub mod declared;
pub mod faults;
pub mod index;
pub mod laws;
pub mod needs;
pub mod program;
pub mod tree;
pub mod words;

pub use declared::{
    Breed, Breeds, Declared, Form, KindsList, NamedWhat, NamedWhats, Procedure, Procedures, What,
};
pub use faults::{BodyKind, CheckKind};
pub use index::{NamedWord, NamedWords, Word};
pub use needs::{Block, Content, Ending, Need};
pub use program::Program;
pub use tree::{Label, Tree, Trees};
pub use words::word;

#[cfg(test)]
mod tests;
