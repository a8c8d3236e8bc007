//! The experiment: what its file says, its runs, its widgets, and its texts beside a program.
#![tactic(auto)]

pub mod experiment;
pub mod faults;
pub mod laws;
pub mod numbers;
pub mod texts;
pub mod widgets;

pub use experiment::Experiment;
pub use faults::{PlanFault, PlanRefusal};
pub use nl_check_model::{Inner, InnerKind};
pub use nl_experiment_fields::Fields;
pub use nl_experiment_keys::PlanKind;
pub use nl_experiment_sweep::{Choice, Setting, Settings, Varies, Vary};
pub use texts::Texts;
