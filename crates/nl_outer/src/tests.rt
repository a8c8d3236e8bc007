use crate::{Args, Files, MemFiles, MemSink, ReadFail, Sink};
use nl_fixed::NoMemory;
use std::alloc::Global;
use std::test::Fail;

// Lets go of a thing by one call: what ends inside of a function is walked there, once on each way out.
fn let_go<T: Drop>(_thing: T) {}

fn three_words(alloc: Global) -> Result<Args, NoMemory> {
    let mut words = Args::new(alloc);
    words.push(alloc, "table")?;
    words.push(alloc, "")?;
    words.push(alloc, "é.nlogo")?;
    Ok(words)
}

#[test]
fn words_come_back_in_order(rt: HostRuntime) -> Result<(), Fail> {
    assert!(rt; Args::new(rt.alloc()).len() == 0);
    let words = three_words(rt.alloc())?;
    assert!(rt; words.len() == 3);
    assert!(rt; words.word(0) == Some("table"));
    assert!(rt; words.word(1) == Some(""));
    assert!(rt; words.word(2) == Some("é.nlogo"));
    assert!(rt; words.word(3).is_none());
    Ok(())
}

// Whether a read gave these bytes, or failed where there are none.
fn is_given(read: &Result<Vec<u8>, ReadFail>, wanted: Option<&[u8]>) -> bool {
    match read {
        Ok(bytes) => wanted == Some(bytes.as_slice()),
        Err(fail) => wanted.is_none() && *fail == ReadFail::Failed,
    }
}

// Whether a read of the path gives these bytes, or fails where there are none.
fn gives(
    alloc: Global,
    files: &mut MemFiles,
    path: &str,
    most: u64,
    wanted: Option<&[u8]>,
) -> bool {
    let read = files.read_file(alloc, path, most);
    let answer = is_given(&read, wanted);
    let_go(read);
    answer
}

// Two files, the first of which is added again with other bytes, and the sixth read fails.
fn two_files(alloc: Global) -> Result<MemFiles, NoMemory> {
    let mut files = MemFiles::new(alloc);
    files.add(alloc, "a", b"abcde")?;
    files.add(alloc, "b", b"")?;
    files.add(alloc, "a", b"second")?;
    files.fail_call(alloc, 6)?;
    Ok(files)
}

#[test]
fn files_in_memory_give_the_first_file_of_a_path_and_fail_where_asked(
    rt: HostRuntime,
) -> Result<(), Fail> {
    let mut files = two_files(rt.alloc())?;
    let reads: [(&str, u64, Option<&[u8]>); 9] = [
        ("a", 9, Some(b"abcde")),
        ("a", 5, Some(b"abcde")),
        ("a", 4, Some(b"abcde")),
        ("a", 3, Some(b"abcd")),
        ("a", 0, Some(b"a")),
        ("a", 9, None),
        ("a", u64::MAX, Some(b"abcde")),
        ("b", 0, Some(b"")),
        ("c", 9, None),
    ];
    for (path, most, wanted) in reads {
        assert!(rt;
            gives(rt.alloc(), &mut files, path, most, wanted),
            "{path} {most}"
        );
    }
    Ok(())
}

// Whether a put of the piece is done, or fails, and the sink then holds these bytes.
fn takes(sink: &mut MemSink, piece: &[u8], is_done: bool, held: &[u8]) -> bool {
    let done = sink.put(piece).is_ok();
    done == is_done && sink.bytes() == held
}

// A sink of ten bytes, whose second and fourth put fail.
fn failing_sink(alloc: Global) -> Result<MemSink, NoMemory> {
    let mut sink = MemSink::with_room(alloc, 10)?;
    sink.fail_call(alloc, 2, 2)?;
    sink.fail_call(alloc, 2, 0)?;
    sink.fail_call(alloc, 4, 9)?;
    Ok(sink)
}

// A sink of two bytes, whose second put fails.
fn small_sink(alloc: Global) -> Result<MemSink, NoMemory> {
    let mut small = MemSink::with_room(alloc, 2)?;
    small.fail_call(alloc, 2, 5)?;
    Ok(small)
}

#[test]
fn a_sink_in_memory_keeps_what_fits_and_what_a_failing_put_may_keep(
    rt: HostRuntime,
) -> Result<(), Fail> {
    let mut sink = failing_sink(rt.alloc())?;
    let puts: [(&[u8], bool, &[u8]); 7] = [
        (b"abc", true, b"abc"),
        (b"def", false, b"abcde"),
        (b"", true, b"abcde"),
        (b"fg", false, b"abcdefg"),
        (b"hij", true, b"abcdefghij"),
        (b"", true, b"abcdefghij"),
        (b"k", false, b"abcdefghij"),
    ];
    for (piece, is_done, held) in puts {
        assert!(rt; takes(&mut sink, piece, is_done, held));
    }
    Ok(())
}

#[test]
fn a_failing_put_keeps_no_more_than_there_is_room_for(rt: HostRuntime) -> Result<(), Fail> {
    let mut small = small_sink(rt.alloc())?;
    assert!(rt; takes(&mut small, b"a", true, b"a"));
    assert!(rt; takes(&mut small, b"bcd", false, b"ab"));
    assert!(rt; takes(&mut small, b"e", false, b"ab"));
    Ok(())
}

fn push_word(alloc: Global, words: &mut Args, at: u64) -> Result<(), NoMemory> {
    let word = format!(in alloc; "word {at}")?;
    words.push(alloc, word.as_str())
}

fn many_words(alloc: Global) -> Result<Args, NoMemory> {
    let mut words = Args::new(alloc);
    'words: for at in 0..300u64 {
        push_word(alloc, &mut words, at)?;
    }
    Ok(words)
}

#[test]
fn there_may_be_hundreds_of_words(rt: HostRuntime) -> Result<(), Fail> {
    let words = many_words(rt.alloc())?;
    assert!(rt; words.len() == 300);
    assert!(rt; words.word(299) == Some("word 299"));
    Ok(())
}

// Adds a file with the first of these bytes, and makes a later read fail.
fn add_word(alloc: Global, files: &mut MemFiles, at: u64, bytes: &[u8]) -> Result<(), NoMemory> {
    let word = format!(in alloc; "word {at}")?;
    files.add(alloc, word.as_str(), bytes)?;
    files.fail_call(alloc, at.saturating_add(2))
}

// 300 files of ever more bytes, and one of all bytes. The first read is done, and all later ones fail.
fn many_files(alloc: Global, bytes: &[u8]) -> Result<MemFiles, NoMemory> {
    let mut files = MemFiles::new(alloc);
    'files: for at in 0..300usize {
        add_word(
            alloc,
            &mut files,
            at as u64,
            bytes.get(..at).unwrap_or(bytes),
        )?;
    }
    files.add(alloc, "many", bytes)?;
    Ok(files)
}

// A read that is to fail does, where it finds a file and where it finds none.
#[test]
fn there_may_be_hundreds_of_files_and_faults(rt: HostRuntime) -> Result<(), Fail> {
    let bytes = vec![in rt.alloc(); b'x'; 100_000]?;
    let mut files = many_files(rt.alloc(), bytes.as_slice())?;
    let all = Some(bytes.as_slice());
    assert!(rt; gives(rt.alloc(), &mut files, "many", u64::MAX, all));
    for path in ["many", "word 299", "none"] {
        assert!(rt;
            gives(rt.alloc(), &mut files, path, u64::MAX, None),
            "{path}"
        );
    }
    Ok(())
}

// A sink of 200,000 bytes, of which the third put and 299 later ones fail.
fn large_sink(alloc: Global) -> Result<MemSink, NoMemory> {
    let mut sink = MemSink::with_room(alloc, 200_000)?;
    'calls: for call in 0..300u64 {
        sink.fail_call(alloc, call.saturating_add(3), 0)?;
    }
    Ok(sink)
}

#[test]
fn a_sink_in_memory_holds_far_more_than_the_usual(rt: HostRuntime) -> Result<(), Fail> {
    let bytes = vec![in rt.alloc(); b'x'; 100_000]?;
    let mut sink = large_sink(rt.alloc())?;
    assert!(rt; sink.put(bytes.as_slice()).is_ok());
    assert!(rt; sink.put(bytes.as_slice()).is_ok());
    assert!(rt; sink.put(b"x").is_err());
    assert!(rt; sink.bytes().len() == 200_000);
    Ok(())
}
