//! The reader of a table's records.

ghost use Rattle.std.specs.Prelude.{[]};
ghost use Rattle.fixing_files.specs.Readers.{HasRead};

use csv::{Reader, ReaderBuilder};
use std::alloc::Global;

/// More than the records of a table, of which there are at most one more than bytes.
pub const MOST_READS: u32 = 16_777_218;

/// A reader of the records of a text, of any length, the first of them like the others.
pub fn reader_of(alloc: Global, text: &[u8]) -> Reader<&[u8]>
    ensures { HasRead text.now [] result }
{
    ReaderBuilder::new()
        .has_headers(false)
        .flexible(true)
        .from_reader(alloc, text)
}
