//! The calls.

use crate::words::{Call, call_of};
use crate::{codes, contracts, days, texts, tokens};
use row_language::{Answer, RowErr, Rows, first_word};
use std::alloc::Global;

// Answers a call on a text, and further words.
fn answer_call(
    alloc: Global,
    call: Call,
    rows: &Rows<'_>,
    text: &[u8],
    words: &str,
    out: &mut String,
) -> Answer {
    match call {
        Call::PrintPortfolio => texts::printed(alloc, text, out),
        Call::PrintDecls => texts::printed_decls(alloc, text, out),
        Call::ParseDecls => tokens::read_decls(alloc, text, words, out),
        Call::OnContract(call) => contracts::answer_contract(alloc, call, text, out),
        Call::OnDay(call) => days::answer_day(alloc, call, rows, text, words, out),
        Call::Compile => contracts::compiled(alloc, text, rows.file(words)?, out),
        Call::Cut => codes::is_cut(alloc, text, rows.file(words)?, out),
        Call::ValueScratch => codes::has_room(alloc, text, out),
        Call::Fixings => codes::fixed(alloc, rows, text, words, out),
    }
}

/// Makes the call of a line, and appends what it answers. The line is its name, the name of a file
/// of the row, and further words, with a bar between.
pub fn make_call(
    alloc: Global,
    rows: &Rows<'_>,
    line: &str,
    out: &mut String,
) -> Result<(), RowErr> {
    let (name, words) = first_word(line);
    let (file, words) = first_word(words);
    write!(out, "{line}\n")?;
    answer_call(alloc, call_of(name)?, rows, rows.file(file)?, words, out)
}
