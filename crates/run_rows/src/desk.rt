//! The files and the sink of a row, and a run over them.

use contract_cli::{Status, run};
use edge_io::{Entry, MemoryFiles, MemorySink};
use row_language::{Named, RowErr, number_of};
use std::alloc::{AllocError, Global};

/// The room of a sink of which nothing else is said.
const ROOM: usize = 4_194_304;

/// What a row says of its reads, its writes and its sink.
#[derive(Drop)]
pub struct Faults {
    /// The numbers of the reads that fail.
    pub failing_reads: Vec<u64>,
    /// The numbers of the writes that fail.
    pub failing_writes: Vec<u64>,
    /// How many bytes a write takes at most.
    pub most: usize,
    /// How many bytes the sink has room for.
    pub room: usize,
    /// How many bytes of an output are shown at most.
    pub first: usize,
}

/// The first bytes of a file, in place of all of them.
#[derive(Clone, Copy)]
pub struct Front<'a> {
    pub file: &'a str,
    pub length: usize,
}

/// Files and a sink in memory, as the runs so far have left them.
#[derive(Drop)]
pub struct Desk {
    files: MemoryFiles,
    sink: MemorySink,
}

// A file in memory, or its front.
fn entry_of(
    alloc: Global,
    file: &Named<'_>,
    front: Option<Front<'_>>,
) -> Result<Entry, AllocError> {
    let whole = file.bytes.as_slice();
    let bytes = match front {
        Some(front) if front.file == file.name => whole.get(..front.length).unwrap_or(whole),
        _ => whole,
    };
    Ok(Entry {
        name: file.name.as_bytes().to_vec(alloc)?,
        bytes: bytes.to_vec(alloc)?,
        faults: 0,
    })
}

fn size_of(digits: &str) -> Result<usize, RowErr> {
    Ok(number_of(digits)? as usize)
}

// Numbers, between which single blanks stand.
fn numbers_of(alloc: Global, text: &str) -> Result<Vec<u64>, RowErr> {
    let mut numbers = Vec::new(alloc);
    for digits in text.split(' ') {
        numbers.push(number_of(digits)?)?;
    }
    Ok(numbers)
}

impl Faults {
    /// Nothing fails.
    pub fn none(alloc: Global) -> Faults {
        Faults {
            failing_reads: Vec::new(alloc),
            failing_writes: Vec::new(alloc),
            most: ROOM,
            room: ROOM,
            first: usize::MAX,
        }
    }

    /// Says what the reads, the writes or the sink do.
    pub fn set(&mut self, alloc: Global, word: &str, rest: &str) -> Result<(), RowErr> {
        match word {
            "most" => self.most = size_of(rest)?,
            "room" => self.room = size_of(rest)?,
            "first" => self.first = size_of(rest)?,
            _ => match rest.split_once(' ') {
                Some(("reads", numbers)) => self.failing_reads = numbers_of(alloc, numbers)?,
                Some(("writes", numbers)) => self.failing_writes = numbers_of(alloc, numbers)?,
                _ => return Err(RowErr::Form),
            },
        }
        Ok(())
    }

    /// These files afresh and a fresh sink, where one file may be a front of itself.
    pub fn desk(
        &self,
        alloc: Global,
        files: &[Named<'_>],
        front: Option<Front<'_>>,
    ) -> Result<Desk, RowErr> {
        if self.most == 0 {
            return Err(RowErr::Most);
        }
        let mut entries = Vec::new(alloc);
        for file in files {
            entries.push(entry_of(alloc, file, front)?)?;
        }
        let files = MemoryFiles::new(entries, self.failing_reads.as_slice().to_vec(alloc)?);
        let failing_writes = self.failing_writes.as_slice().to_vec(alloc)?;
        let sink = MemorySink::new(alloc, failing_writes, self.most, self.room)?;
        Ok(Desk { files, sink })
    }
}

impl Desk {
    /// Runs these words, which stand between `|`.
    pub fn run(&mut self, alloc: Global, words: Option<&str>) -> Result<Status, RowErr> {
        let mut list = Vec::new(alloc);
        if let Some(words) = words {
            for word in words.split('|') {
                list.push(word)?;
            }
        }
        Ok(run(alloc, &list, &mut self.files, &mut self.sink))
    }

    /// What the sink has taken.
    pub fn taken(&self) -> &[u8] {
        self.sink.taken()
    }
}
