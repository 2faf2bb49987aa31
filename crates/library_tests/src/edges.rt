//! Files and sinks in memory and of the system: what they answer, what they hold, and what they
//! count.

use decimal::NoMemory;
use edge_io::{
    Entry, Files, MemoryFiles, MemorySink, ReadErr, RealFiles, RealSink, Sink, WriteErr,
    write_whole,
};
use std::alloc::{AllocError, Global};
use std::fmt::Display;
use std::io::ErrorKind;
use std::test::Fail;
use std::{fs, io};

fn entry(alloc: Global, name: &str, bytes: &str) -> Result<Entry, AllocError> {
    Ok(Entry {
        name: name.as_bytes().to_vec(alloc)?,
        bytes: bytes.as_bytes().to_vec(alloc)?,
        faults: 0,
    })
}

#[test]
fn memory_files_answer_by_number_name_and_length(rt: HostRuntime) -> Result<(), Fail> {
    let alloc = rt.alloc();
    let entries = Vec::from_array(
        alloc,
        [
            entry(alloc, "loan", "abc")?,
            entry(alloc, "empty", "")?,
            entry(alloc, "loan", "later")?,
        ],
    )?;
    let mut files = MemoryFiles::new(entries, [2].to_vec(alloc)?);
    for (read, name, max, want) in [
        (1, "loan", 3, Ok("abc")),
        (2, "loan", 3, Err(ReadErr::Failed)),
        (3, "loan", 2, Err(ReadErr::TooLong)),
        (4, "none", 3, Err(ReadErr::Failed)),
        (5, "empty", 0, Ok("")),
    ] {
        let answer = files.read_all(alloc, name, max);
        let answer = answer
            .as_ref()
            .map(|bytes| bytes.as_slice())
            .map_err(|e| *e);
        assert_eq!(rt; answer, want.map(|text| text.as_bytes()), "read {read}");
    }
    Ok(())
}

#[test]
fn a_memory_sink_takes_what_its_room_and_its_numbers_allow(rt: HostRuntime) -> Result<(), Fail> {
    let alloc = rt.alloc();
    let mut sink = MemorySink::new(alloc, [2].to_vec(alloc)?, 4, 10)?;
    for (piece, want) in [
        ("", Ok(0)),
        ("abcdef", Ok(4)),
        ("ef", Err(WriteErr::Failed)),
        ("", Ok(0)),
        ("efgh", Ok(4)),
        ("ijkl", Ok(2)),
        ("k", Err(WriteErr::Failed)),
    ] {
        assert_eq!(rt; sink.write(piece.as_bytes()), want, "{piece}");
    }
    assert_eq!(rt; sink.taken(), b"abcdefghij".as_slice());
    let none = MemorySink::new(alloc, Vec::new(alloc), 1, usize::MAX);
    assert!(rt; matches!(none, Err(NoMemory)));
    Ok(())
}

#[test]
fn a_text_is_written_whole_or_to_the_write_that_failed(rt: HostRuntime) -> Result<(), Fail> {
    let alloc = rt.alloc();
    let text = b"2026-03-01,USD,1000.00,lender";
    for (failing, want, written) in [
        (9, Ok(()), 29),
        (3, Err(WriteErr::Failed), 20),
        (2, Err(WriteErr::Failed), 10),
        (1, Err(WriteErr::Failed), 0),
    ] {
        let mut sink = MemorySink::new(alloc, [failing].to_vec(alloc)?, 10, 4096)?;
        assert_eq!(rt;
            write_whole(&mut sink, text),
            want,
            "failing write {failing}"
        );
        assert_eq!(rt; sink.taken(), &text[..written], "failing write {failing}");
    }
    Ok(())
}

#[test]
fn real_files_are_read_up_to_the_limit(rt: HostRuntime) -> Result<(), Fail> {
    let alloc = rt.alloc();
    let name = "edge_io_real_files_test";
    let long = [b'7'; 5000];
    fs::write(&rt, name, long.as_slice())?;
    let mut files = RealFiles::new(rt);
    for (name, max, want) in [
        (name, 5000, Ok(5000)),
        (name, u64::MAX, Ok(5000)),
        (name, 4999, Err(ReadErr::TooLong)),
        (name, 0, Err(ReadErr::TooLong)),
        ("edge_io_no_such_file", 5000, Err(ReadErr::Failed)),
        (".", 5000, Err(ReadErr::Failed)),
    ] {
        let answer = files.read_all(alloc, name, max);
        let answer = answer
            .as_ref()
            .map(|bytes| bytes.as_slice())
            .map_err(|e| *e);
        assert_eq!(rt; answer, want.map(|_| long.as_slice()), "{name} up to {max}");
    }
    fs::remove_file(&rt, name)?;
    Ok(())
}

// An output that takes nothing.
#[derive(Drop)]
struct FullOutput;

impl Print for FullOutput {
    fn print<D: Display + Drop>(&self, _value: D) -> io::Result<()> {
        Err(io::Error::from(ErrorKind::StorageFull))
    }

    fn println<D: Display + Drop>(&self, _value: D) -> io::Result<()> {
        Err(io::Error::from(ErrorKind::StorageFull))
    }

    fn write_all(&self, _bytes: &[u8]) -> io::Result<()> {
        Err(io::Error::from(ErrorKind::StorageFull))
    }
}

#[test]
fn a_real_sink_writes_or_says_that_it_failed(rt: HostRuntime) -> Result<(), Fail> {
    let mut sink = RealSink::new(rt);
    assert_eq!(rt; sink.write(b""), Ok(0));
    assert_eq!(rt; write_whole(&mut sink, b"a whole text\n"), Ok(()));
    let mut full = RealSink::new(FullOutput);
    assert_eq!(rt; full.write(b""), Ok(0));
    assert_eq!(rt; full.write(b"a text"), Err(WriteErr::Failed));
    Ok(())
}

#[test]
fn errors_say_what_happened(rt: HostRuntime) -> Result<(), Fail> {
    for (error, want) in [
        (ReadErr::Failed, "the file could not be read"),
        (ReadErr::TooLong, "the file is too long"),
        (ReadErr::NoMemory, "out of memory"),
    ] {
        let text = format!(in rt.alloc(); "{error}")?;
        assert_eq!(rt; text.as_str(), want);
    }
    let text = format!(in rt.alloc(); "{}", WriteErr::Failed)?;
    assert_eq!(rt; text.as_str(), "the text could not be written");
    Ok(())
}
