//! Tilugba as a C function: one call runs one command over words and files that the caller lends.
//! The surface is that of `include/tilugba.h`.
//!
//! Promised: what `in_process::run_lent` promises (`Ends`). The caller owes what no proof can see:
//! pointers that are valid for their sizes, and a room and a size that overlap nothing else.
//! Only tested: the C, Python and Rust around it (`tests/embedding`).
#![tactic(auto)]

ghost use Rattle.std.specs.Prelude.{◌≡◌, map};
ghost use Rattle.in_process.specs.Ends.{Ends};

use in_process::{NamedBytes, Piece, run_lent};
use std::alloc::Global;

/// Runs the command of the words over the files. Its text stands at the front of the room, if it
/// fits there; else the room is as it was. `count` is the length of the whole text. Answers the
/// number of the run's status, or 13 if a word is not UTF-8.
#[unsafe(no_mangle)]
pub extern "C" fn tilugba_run(
    alloc: Global,
    words: &[Piece<'_>],
    files: &[NamedBytes<'_>],
    room: &mut [u8],
    count: &mut usize,
) -> u32
    ensures { Ends (map (λ piece. piece.bytes.now) words.now) files.now room.old room.new
        count.new result }
{
    let ended = run_lent(alloc, words, files, room);
    *count = ended.count;
    ended.code
}

/// The number of this surface: a caller compares it with the one that its header has.
#[unsafe(no_mangle)]
pub extern "C" fn tilugba_abi() -> u32
    ensures { result ≡ 1 }
{
    1
}
