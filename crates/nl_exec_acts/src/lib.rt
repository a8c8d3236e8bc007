//! Words of a text that take no block and want no unit: what each does once its inputs are there, over any store.
#![tactic(auto)]

mod acts;
mod clock;
pub mod fail;
mod looks;
mod motion;
pub mod perform;
mod run;
mod spots;
pub mod stage;
mod values;
mod whom;
pub mod words;

pub use fail::{ActFail, ErrorKind};
pub use stage::Stage;
pub use words::{Act, Bound, Clear, Clock, Look, Move, OfRun, SetWord, Spot, Whom};
