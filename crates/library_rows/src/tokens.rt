//! Tokens, read one at a time round declarations.

ghost use Rattle.std.specs.Prelude.{◌≡◌, ◌≤◌, length, true};
ghost use Rattle.term_model.specs.Limits.{is_a_version, most_counted};
ghost use Rattle.contract_parse.specs.Cursors.{Fits};

use crate::texts::say_decls;
use crate::words::version;
use contract_parse::{Cursor, next_token, parse_decls, start_text};
use row_language::{Answer, RowErr, count, first_word, say};
use std::alloc::Global;
use term_model::MOST_COUNTED;

// Appends so many tokens, or the fault that stands there.
fn say_tokens(cursor: &mut Cursor, text: &[u8], tokens: u32, out: &mut String) -> Answer
    requires small { length text.now ≤ most_counted }
    requires fits { Fits text.now cursor.old }
    ensures { Fits text.now cursor.new }
{
    for _ in 0..tokens {
        say(&next_token(cursor, text), out)?;
    }
    Ok(())
}

// Appends the declarations of a version at the cursor, or their fault.
fn say_next_decls(
    alloc: Global,
    cursor: &mut Cursor,
    text: &[u8],
    version: u8,
    out: &mut String,
) -> Answer
    requires version { is_a_version version ≡ true }
    requires small { length text.now ≤ most_counted }
    requires fits { Fits text.now cursor.old }
    ensures { Fits text.now cursor.new }
{
    match parse_decls(alloc, cursor, text, version) {
        Ok(decls) => say_decls(alloc, &decls, out),
        Err(error) => say(&error, out),
    }
}

// Appends so many tokens, declarations, and so many tokens behind them.
fn say_round(
    alloc: Global,
    cursor: &mut Cursor,
    text: &[u8],
    version: u8,
    tokens: (u32, u32),
    out: &mut String,
) -> Answer
    requires version { is_a_version version ≡ true }
    requires small { length text.now ≤ most_counted }
    requires fits { Fits text.now cursor.old }
{
    let (before, behind) = tokens;
    say_tokens(cursor, text, before, out)?;
    say_next_decls(alloc, cursor, text, version, out)?;
    say_tokens(cursor, text, behind, out)
}

// The same from the beginning of a text that is short.
fn say_all(alloc: Global, text: &[u8], version: u8, tokens: (u32, u32), out: &mut String) -> Answer
    requires version { is_a_version version ≡ true }
    requires small { length text.now ≤ most_counted }
{
    match start_text(text) {
        Ok(start) => {
            let mut cursor = start;
            say_round(alloc, &mut cursor, text, version, tokens, out)
        }
        Err(fault) => say(&fault, out),
    }
}

// How many tokens stand before the declarations, and behind.
fn tokens_of(words: &str) -> Result<(u32, u32), RowErr> {
    let (before, behind) = first_word(words);
    Ok((count(before)?, count(behind)?))
}

/// `parse_decls FILE VERSION BEFORE BEHIND`: so many tokens, the declarations of the version behind
/// them, and so many tokens behind those.
pub fn read_decls(alloc: Global, text: &[u8], words: &str, out: &mut String) -> Answer {
    if text.len() > MOST_COUNTED as usize {
        return Err(RowErr::Range);
    }
    let (number, words) = first_word(words);
    say_all(alloc, text, version(number)?, tokens_of(words)?, out)
}
