//! What a text means: the nodes of a program, what the plain machine does at each, and the frames of what is under way.
#![tactic(auto)]

pub mod arena;
pub mod boxed;
pub mod children;
pub mod ends;
pub mod exits;
pub mod frames;
pub mod hands;
pub mod held;
pub mod item;
mod items;
pub mod laws;
pub mod local_names;
pub mod locals;
mod naming;
pub mod nesting;
pub mod numbers;
mod resolve;
pub mod rounds;
pub mod sites;
pub mod sound;
pub mod turns;
pub mod words;

pub use arena::Code;
pub use boxed::{BoxedAnswers, BoxedRounds, BoxedSite, BoxedTurns};
pub use exits::Exit;
pub use frames::{Frame, Next};
pub use hands::Hands;
pub use held::HeldValue;
pub use item::{Item, Op};
pub use locals::{Local, Locals};
pub use nesting::NESTING_LIMIT;
pub use numbers::Numbers;
pub use rounds::Rounds;
pub use sites::Site;
pub use turns::{Answered, Answers, Gathered, Turns};
pub use words::{Apart, Arrow, Built, Control, Making, Over, Spread, apart_word, built_word};
