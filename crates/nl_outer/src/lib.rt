//! The outside of the program: its words, files that are read whole, and sinks that take bytes.
#![tactic(auto)]

pub mod args;
pub mod files;
mod folder;
pub mod host_files;
pub mod host_streams;
pub mod memory_files;
pub mod memory_sink;
pub mod sinks;

pub use args::Args;
pub use files::{Files, ReadFail, StoredFile};
pub use host_files::HostFiles;
pub use host_streams::{HostErr, HostOut};
pub use memory_files::MemFiles;
pub use memory_sink::MemSink;
pub use sinks::{Sink, WriteFail};

#[cfg(test)]
mod tests;
