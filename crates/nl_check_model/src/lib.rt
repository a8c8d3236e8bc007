//! Texts that are read and checked whole: the file of a model, and a lone text beside a checked program.
#![tactic(auto)]

pub mod faults;
pub mod laws;
pub mod lone;
pub mod lone_faults;
pub mod lone_laws;
pub mod model;
pub mod program;

pub use faults::{ModelFault, ModelKind, ModelRefusal};
pub use lone::read_lone;
pub use lone_faults::{Inner, InnerKind, LoneRefusal};
pub use model::read_model;
pub use program::read_program;
