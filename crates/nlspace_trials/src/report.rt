//! What is told of the trials of a file.

use std::alloc::Global;

/// What the program answers to a call, or shall answer.
#[derive(Clone, Copy)]
pub struct Answer<'a> {
    pub status: u64,
    pub out: &'a [u8],
    pub err: &'a [u8],
}

fn is_same(one: Answer<'_>, other: Answer<'_>) -> bool {
    one.status == other.status && one.out == other.out && one.err == other.err
}

/// The lines on the trials that ended, and how many cases of the one under way there were.
#[derive(Drop)]
pub struct Report {
    pub alloc: Global,
    lines: Vec<u8>,
    cases: u64,
    good: u64,
}

impl Report {
    pub fn new(alloc: Global) -> Report {
        Report {
            alloc,
            lines: Vec::new(alloc),
            cases: 0,
            good: 0,
        }
    }

    pub fn lines(&self) -> &[u8] {
        self.lines.as_slice()
    }

    fn put(&mut self, text: &str) -> Option<()> {
        self.lines.extend_from_slice(text.as_bytes()).ok()
    }

    // An answer, as a line of its status, what it put, and the line on standard error.
    fn put_answer(&mut self, answer: Answer<'_>) -> Option<()> {
        let status = answer.status;
        let front = format!(in self.alloc; "    status {status}\n").ok()?;
        self.put(front.as_str())?;
        self.lines.extend_from_slice(answer.out).ok()?;
        self.lines.extend_from_slice(answer.err).ok()
    }

    /// Counts a case. One that isn't as expected is told whole, with both answers.
    pub fn compare(&mut self, case: &str, wanted: Answer<'_>, found: Answer<'_>) -> Option<()> {
        self.cases = self.cases.saturating_add(1);
        if is_same(wanted, found) {
            self.good = self.good.saturating_add(1);
            return Some(());
        }
        self.put("NOT AS EXPECTED: ")?;
        self.put(case)?;
        self.put("\n  wanted:\n")?;
        self.put_answer(wanted)?;
        self.put("  found:\n")?;
        self.put_answer(found)
    }

    /// Ends a trial with its line.
    pub fn end(&mut self, file: &str, name: &str) -> Option<()> {
        let (good, cases) = (self.good, self.cases);
        let line = if good == cases {
            format!(in self.alloc; "{file}: {name}: ok {cases}\n")
        } else {
            format!(in self.alloc; "{file}: {name}: NOT AS EXPECTED, ok {good} of {cases}\n")
        };
        self.good = 0;
        self.cases = 0;
        self.put(line.ok()?.as_str())
    }

    /// Tells of a file that can't be read on.
    pub fn give_up(&mut self, file: &str) {
        let _ = self.put("CAN'T BE READ ON: ");
        let _ = self.put(file);
        let _ = self.put("\n");
    }
}
