use super::{HostFiles, read_on};
use crate::{Files, ReadFail};
use nl_fixed::Str;
use std::alloc::Global;
use std::io::{ErrorKind, Read};
use std::test::Fail;
use std::{fs, io, rt};

const PATH: &str = "nl_outer_host_files_test";

// Lets go of a thing by one call: what ends inside of a function is walked there, once on each way out.
fn let_go<T: Drop>(_thing: T) {}

// Whether a read gave so many bytes, with which the text begins.
fn is_front(read: &Result<Vec<u8>, ReadFail>, text: &[u8], len: usize) -> bool {
    match read {
        Ok(bytes) => bytes.len() == len && text.starts_with(bytes.as_slice()),
        Err(_) => false,
    }
}

// Whether a read failed, and not for want of memory.
fn is_failed(read: &Result<Vec<u8>, ReadFail>) -> bool {
    match read {
        Ok(_) => false,
        Err(fail) => *fail == ReadFail::Failed,
    }
}

// Whether a read of the path gives so many bytes, with which the text begins.
fn gives<R: rt::Files>(
    alloc: Global,
    files: &mut HostFiles<R>,
    most: u64,
    text: &[u8],
    len: usize,
) -> bool {
    let read = files.read_file(alloc, PATH, most);
    let answer = is_front(&read, text, len);
    let_go(read);
    answer
}

// Whether a read of the path fails.
fn fails<R: rt::Files>(alloc: Global, files: &mut HostFiles<R>, path: &str) -> bool {
    let read = files.read_file(alloc, path, 9);
    let answer = is_failed(&read);
    let_go(read);
    answer
}

// Whether this is the path.
fn is_path(place: &Option<Str>, path: &str) -> bool {
    match place {
        Some(place) => place.as_bytes() == path.as_bytes(),
        None => false,
    }
}

// So many digits, ten at a time.
fn digits(alloc: Global, tens: u32) -> Result<Vec<u8>, Fail> {
    let mut text = Vec::new(alloc);
    for _ in 0..tens {
        text.extend_from_slice(b"0123456789")?;
    }
    Ok(text)
}

#[test]
fn a_file_of_the_host_is_read_up_to_its_bound(rt: HostRuntime) -> Result<(), Fail> {
    let text = digits(rt.alloc(), 2_500)?;
    fs::write(&rt, PATH, text.as_slice())?;
    let mut files = HostFiles::new(&rt);
    let reads = [
        (0, 1),
        (8_191, 8_192),
        (8_192, 8_193),
        (24_998, 24_999),
        (24_999, 25_000),
        (25_000, 25_000),
        (u64::MAX, 25_000),
    ];
    for (most, len) in reads {
        assert!(rt;
            gives(rt.alloc(), &mut files, most, text.as_slice(), len),
            "{most}"
        );
    }
    fs::remove_file(&rt, PATH)?;
    assert!(rt; files.faults == 0 && files.last_fault.is_none());
    Ok(())
}

#[test]
fn neither_a_missing_file_nor_a_folder_can_be_read(rt: HostRuntime) {
    let mut files = HostFiles::new(&rt);
    for (path, faults) in [("nl_outer_host_files_none", 1), (".", 2)] {
        assert!(rt; fails(rt.alloc(), &mut files, path));
        assert!(rt; files.faults == faults);
        assert!(rt; is_path(&files.last_fault, path));
    }
}

// Gives three bytes a read. The second read is interrupted, and where `cut` is set the fifth fails.
#[derive(Drop)]
struct Choppy {
    reads: u8,
    given: usize,
    cut: bool,
}

impl Read for Choppy {
    fn read(&mut self, buf: &mut [u8]) -> io::Result<usize> {
        self.reads = self.reads.saturating_add(1);
        if self.reads == 2 {
            return Err(io::Error::from(ErrorKind::Interrupted));
        }
        if self.cut && self.reads == 5 {
            return Err(io::Error::from(ErrorKind::BrokenPipe));
        }
        let count = buf.len().min(3);
        for byte in buf.iter_mut().take(count) {
            *byte = b'x';
        }
        self.given = self.given.saturating_add(count);
        Ok(count)
    }
}

// Whether a read of the file, up to a bound, gives so many bytes, with which the text begins.
fn reads_on<R: Read>(alloc: Global, file: &mut R, most: u64, text: &[u8], len: usize) -> bool {
    let read = read_on(alloc, file, most);
    let answer = is_front(&read, text, len);
    let_go(read);
    answer
}

#[test]
fn a_reader_that_never_ends_gives_no_byte_past_the_bound(rt: HostRuntime) {
    let mut file = Choppy {
        reads: 0,
        given: 0,
        cut: false,
    };
    assert!(rt; reads_on(rt.alloc(), &mut file, 9, b"xxxxxxxxxx", 10));
    assert!(rt; file.given == 10);
}

#[test]
fn a_read_that_fails_in_mid_stream_is_a_fault(rt: HostRuntime) {
    let mut file = Choppy {
        reads: 0,
        given: 0,
        cut: true,
    };
    let read = read_on(rt.alloc(), &mut file, 99);
    assert!(rt; is_failed(&read));
    let_go(read);
}

// 200,000 bytes of all kinds.
fn pieces(alloc: Global) -> Result<Vec<u8>, Fail> {
    let mut text = Vec::new(alloc);
    for part in 0..20_000u32 {
        text.extend_from_slice(&part.to_be_bytes())?;
        text.extend_from_slice(b"\0\r\n\xff\x80 ")?;
    }
    Ok(text)
}

// Whether a read of the path gives these bytes.
fn gives_all<R: rt::Files>(
    alloc: Global,
    files: &mut HostFiles<R>,
    path: &str,
    text: &[u8],
) -> bool {
    let read = files.read_file(alloc, path, u64::MAX);
    let answer = is_front(&read, text, text.len());
    let_go(read);
    answer
}

#[test]
fn a_file_of_many_pieces_is_read_whole_whatever_its_path(rt: HostRuntime) -> Result<(), Fail> {
    let mut text = pieces(rt.alloc())?;
    assert!(rt; text.len() == 200_000);
    let mut files = HostFiles::new(&rt);
    // A path is taken as it is, with a space at its end too.
    for path in ["nl_outer_host_files_many", "nl_outer_host_files_many "] {
        text.push(path.len().to_be_bytes()[7])?;
        fs::write(&rt, path, text.as_slice())?;
        let all = gives_all(rt.alloc(), &mut files, path, text.as_slice());
        fs::remove_file(&rt, path)?;
        assert!(rt; all, "{path}");
    }
    assert!(rt; files.faults == 0);
    Ok(())
}

// Gives one byte a read, each of the next value, and is interrupted before each third.
#[derive(Drop)]
struct Slow {
    reads: u64,
    given: u64,
    end: u64,
}

impl Read for Slow {
    fn read(&mut self, buf: &mut [u8]) -> io::Result<usize> {
        self.reads = self.reads.saturating_add(1);
        if self.reads % 3 == 0 {
            return Err(io::Error::from(ErrorKind::Interrupted));
        }
        if self.given >= self.end || buf.is_empty() {
            return Ok(0);
        }
        buf[0] = (self.given % 251) as u8;
        self.given = self.given.saturating_add(1);
        Ok(1)
    }
}

// So many bytes, each of the next value.
fn values(alloc: Global, count: u64) -> Result<Vec<u8>, Fail> {
    let mut text = Vec::new(alloc);
    for at in 0..count {
        text.push((at % 251) as u8)?;
    }
    Ok(text)
}

#[test]
fn a_reader_of_one_byte_at_a_time_is_read_to_its_end(rt: HostRuntime) -> Result<(), Fail> {
    let text = values(rt.alloc(), 5_000)?;
    for (most, len) in [
        (u64::MAX, 5_000),
        (5_000, 5_000),
        (4_999, 5_000),
        (4_998, 4_999),
    ] {
        let mut file = Slow {
            reads: 0,
            given: 0,
            end: 5_000,
        };
        assert!(rt; reads_on(rt.alloc(), &mut file, most, text.as_slice(), len));
    }
    Ok(())
}
