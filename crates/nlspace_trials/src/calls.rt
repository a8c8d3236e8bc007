//! Calls of the program over files and sinks in memory.

use crate::report::Answer;
use crate::texts::bytes_of;
use nl_cli::{Status, run};
use nl_outer::{Args, MemFiles, MemSink};
use std::alloc::Global;
use toml::Value;

/// A call with its files and sinks.
#[derive(Drop)]
pub struct Call {
    pub words: Args,
    pub files: MemFiles,
    pub out: MemSink,
    pub err: MemSink,
}

/// A call of no words, over no files, whose sinks have room for so many bytes.
pub fn empty_call(alloc: Global, room: usize) -> Option<Call> {
    Some(Call {
        words: Args::new(alloc),
        files: MemFiles::new(alloc),
        out: MemSink::with_room(alloc, room).ok()?,
        err: MemSink::with_room(alloc, room).ok()?,
    })
}

impl Call {
    /// Appends a word.
    pub fn push(&mut self, alloc: Global, word: &Value) -> Option<()> {
        let bytes = bytes_of(alloc, word)?;
        let word = str::from_utf8(bytes.as_slice()).ok()?;
        self.words.push(alloc, word).ok()
    }

    /// Adds a file at the path that the word of an index is.
    pub fn add_at(&mut self, alloc: Global, index: usize, bytes: &[u8]) -> Option<()> {
        self.files.add(alloc, self.words.word(index)?, bytes).ok()
    }

    /// What the program answers.
    pub fn answer(&mut self, alloc: Global) -> Answer<'_> {
        let status = self.run(alloc);
        Answer {
            status: u64::from(status.code()),
            out: self.out.bytes(),
            err: self.err.bytes(),
        }
    }

    fn run(&mut self, alloc: Global) -> Status {
        run(
            alloc,
            &self.words,
            &mut self.files,
            &mut self.out,
            &mut self.err,
        )
    }
}
