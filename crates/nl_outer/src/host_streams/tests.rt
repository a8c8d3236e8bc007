use super::{HostErr, HostOut};
use crate::Sink;
use std::alloc::Global;
use std::io;
use std::io::{ErrorKind, Write};
use std::test::Fail;

#[test]
fn the_standard_streams_of_the_host_take_all_bytes(rt: HostRuntime) {
    let mut out = HostOut::new(rt.stdout());
    assert!(rt; out.put(b"to standard output\n").is_ok());
    assert!(rt; out.put(b"").is_ok());
    assert!(rt; out.stream.faults == 0);
    let mut err = HostErr::new(rt.stderr());
    assert!(rt; err.put(b"to standard error\n").is_ok());
    assert!(rt; err.stream.faults == 0);
}

// What a writer does that holds five bytes.
#[derive(Clone, Copy)]
enum Full {
    Fails,
    TakesNothing,
    FailsToFlush,
}

// Takes at most three bytes a write, and is interrupted at the second.
#[derive(Drop)]
struct Choppy {
    held: Vec<u8>,
    writes: u8,
    flushes: u8,
    full: Full,
}

impl Write for Choppy {
    fn write(&mut self, buf: &[u8]) -> io::Result<usize> {
        self.writes = self.writes.saturating_add(1);
        if self.writes == 2 {
            return Err(io::Error::from(ErrorKind::Interrupted));
        }
        let most = match self.full {
            Full::FailsToFlush => 3,
            _ => 3.min(5usize.saturating_sub(self.held.len())),
        };
        if let (0, Full::Fails) = (most, self.full) {
            return Err(io::Error::from(ErrorKind::BrokenPipe));
        }
        let count = buf.len().min(most);
        self.held.extend_from_slice(&buf[..count])?;
        Ok(count)
    }

    fn flush(&mut self) -> io::Result<()> {
        self.flushes = self.flushes.saturating_add(1);
        match (self.full, self.held.len()) {
            (Full::FailsToFlush, 5..) => Err(io::Error::from(ErrorKind::BrokenPipe)),
            _ => Ok(()),
        }
    }
}

fn writer(alloc: Global, full: Full) -> Choppy {
    Choppy {
        held: Vec::new(alloc),
        writes: 0,
        flushes: 0,
        full,
    }
}

// Whether of two puts the second is a fault.
fn fails_at_the_second(to: &mut Choppy) -> bool {
    let mut out = HostOut::new(to);
    let first = out.put(b"abcd").is_ok();
    let second = out.put(b"efgh").is_err();
    first && second && out.stream.faults == 1
}

// Whether the writer holds these bytes after two puts, of which the second is a fault.
fn fails_with(to: &mut Choppy, held: &[u8], flushes: u8) -> bool {
    fails_at_the_second(to) && to.held.as_slice() == held && to.flushes == flushes
}

#[test]
fn a_writer_that_fails_or_takes_nothing_is_a_fault(rt: HostRuntime) {
    let cases: [(Full, &[u8], u8); 3] = [
        (Full::Fails, b"abcde", 1),
        (Full::TakesNothing, b"abcde", 1),
        (Full::FailsToFlush, b"abcdefgh", 2),
    ];
    for (full, held, flushes) in cases {
        let mut to = writer(rt.alloc(), full);
        assert!(rt; fails_with(&mut to, held, flushes));
    }
}

// Takes one byte a write, and is interrupted before each third.
#[derive(Drop)]
struct Slow {
    held: Vec<u8>,
    writes: u64,
    flushes: u64,
}

impl Write for Slow {
    fn write(&mut self, buf: &[u8]) -> io::Result<usize> {
        self.writes = self.writes.saturating_add(1);
        if self.writes % 3 == 0 {
            return Err(io::Error::from(ErrorKind::Interrupted));
        }
        let count = buf.len().min(1);
        self.held.extend_from_slice(&buf[..count])?;
        Ok(count)
    }

    fn flush(&mut self) -> io::Result<()> {
        self.flushes = self.flushes.saturating_add(1);
        Ok(())
    }
}

// So many bytes, of numbers that count on.
fn counted(alloc: Global, count: u32) -> Result<Vec<u8>, Fail> {
    let mut piece = Vec::new(alloc);
    for part in 0..count {
        piece.extend_from_slice(&part.to_be_bytes())?;
    }
    Ok(piece)
}

// Whether the writer takes the piece, nothing, and one byte more.
fn takes_all(to: &mut Slow, piece: &[u8]) -> bool {
    let mut err = HostErr::new(to);
    let first = err.put(piece).is_ok();
    let second = err.put(b"").is_ok();
    let third = err.put(b"x").is_ok();
    first && second && third && err.stream.faults == 0
}

#[test]
fn a_writer_of_one_byte_at_a_time_takes_all_and_is_flushed_after_each_put(
    rt: HostRuntime,
) -> Result<(), Fail> {
    let piece = counted(rt.alloc(), 1_250)?;
    let mut to = Slow {
        held: Vec::new(rt.alloc()),
        writes: 0,
        flushes: 0,
    };
    assert!(rt; takes_all(&mut to, piece.as_slice()));
    assert!(rt; to.flushes == 3);
    assert!(rt; to.held.len() == 5_001);
    assert!(rt; to.held.as_slice().starts_with(piece.as_slice()));
    Ok(())
}
