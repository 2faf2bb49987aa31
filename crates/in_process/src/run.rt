//! The call that runs a command.

ghost use Rattle.std.specs.Prelude.{◌≡◌, map};
ghost use Rattle.in_process.specs.Ends.{Ends, IsHandedOut};

use crate::lent::{LentFiles, NamedBytes};
use crate::text_sink::TextSink;
use crate::words::{NotWords, Piece, words_of};
use contract_cli::run;
use std::alloc::Global;

// What is answered where a word is not UTF-8. No run ends with it.
const NOT_UTF8: u32 = 13;

const OUT_OF_MEMORY: u32 = 9;

/// How a call ended.
#[derive(Clone, Copy)]
pub struct Ended {
    /// The number of the run's status, or 13 if a word is not UTF-8.
    pub code: u32,
    /// How many bytes the whole text has.
    pub count: usize,
}

// An end without a text.
fn without_text(code: u32) -> Ended
    ensures { result ≡ record { code = code; count = 0 } }
{
    Ended { code, count: 0 }
}

// Copies the text to the front of the room, if it fits there.
fn hand_out(text: &[u8], room: &mut [u8])
    ensures { IsHandedOut text.now room.old room.new }
{
    if text.len() <= room.len() {
        let (front, _) = room.split_at_mut(text.len());
        front.copy_from_slice(text);
    }
}

/// Runs the command of the words over the files. Its text stands at the front of the room, if it
/// fits there; else the room is as it was. Nothing is kept between calls.
pub fn run_lent(
    alloc: Global,
    words: &[Piece<'_>],
    files: &[NamedBytes<'_>],
    room: &mut [u8],
) -> Ended
    ensures { Ends (map (λ piece. piece.bytes.now) words.now) files.now room.old room.new
        result.count result.code }
{
    let words = match words_of(alloc, words) {
        Ok(words) => words,
        Err(NotWords::NoText) => return without_text(NOT_UTF8),
        Err(NotWords::NoMemory) => return without_text(OUT_OF_MEMORY),
    };
    let mut files = LentFiles::new(files);
    let mut sink = TextSink::new(alloc);
    let status = run(alloc, &words, &mut files, &mut sink);
    if sink.has_failed() {
        return without_text(OUT_OF_MEMORY);
    }
    let text = sink.text();
    hand_out(text, room);
    Ended {
        code: status.number() as u32,
        count: text.len(),
    }
}
