//! The base of every crate: want of memory, texts, places in a text, lists of texts, and fixed-point numbers.
#![tactic(auto)]

pub mod arithmetic;
pub mod characters;
pub mod headings;
pub mod lists;
pub mod memory;
pub mod number;
pub mod number_laws;
pub mod powers;
pub mod rounding;
pub mod sine;
pub mod span;
pub mod spelling;
pub mod spelling_laws;
pub mod text;

pub use arithmetic::rounded_quotient;
pub use lists::{Cells, Names};
pub use memory::NoMemory;
pub use number::{Num, NumFault};
pub use powers::whole_root;
pub use span::Span;
pub use text::Str;
