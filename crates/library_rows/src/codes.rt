//! Calls on payoff code and on sets of scenarios.

ghost use Rattle.std.specs.Prelude.{◌<◌, length};

use crate::files::code_of;
use fixing_files::Fixings;
use payoff_compile::cut;
use payoff_eval::value_scratch;
use payoff_terms::{Code, CodeFile};
use row_language::{Answer, RowErr, Rows, count, first_word, say, say_same, say_words};
use scenario_set::{Scenarios, read_scenarios};
use std::alloc::Global;
use term_model::{Decls, MOST_COUNTED};

// The cut of the code of a file.
fn cut_of(alloc: Global, text: &[u8]) -> Result<Code, RowErr> {
    let CodeFile { code, .. } = code_of(alloc, text)?;
    Ok(cut(alloc, code)?)
}

// Appends whether code is that of a file.
fn say_code(alloc: Global, code: &Code, wanted: &[u8], out: &mut String) -> Answer {
    let file = code_of(alloc, wanted)?;
    say_same(*code == file.code, out)
}

/// `cut CODE CUT`: whether the cut of the code of a file is the code of another.
pub fn is_cut(alloc: Global, text: &[u8], wanted: &[u8], out: &mut String) -> Answer {
    let code = cut_of(alloc, text)?;
    say_code(alloc, &code, wanted, out)
}

// Appends that there is room for the names of a code file.
fn say_room(alloc: Global, file: &CodeFile, out: &mut String) -> Answer {
    value_scratch(alloc, file)?;
    say_words("room", out)
}

/// `value_scratch CODE`: that there is room for the names of a code file.
pub fn has_room(alloc: Global, text: &[u8], out: &mut String) -> Answer {
    let file = code_of(alloc, text)?;
    say_room(alloc, &file, out)
}

// Appends the fixed days of each label.
fn say_days(decls: &Decls, fixings: &Fixings, out: &mut String) -> Answer {
    for label in 0..decls.labels.len() as u32 {
        say(&fixings.days_of(label), out)?;
    }
    Ok(())
}

// Appends those of a scenario.
fn say_scenario(
    alloc: Global,
    decls: &Decls,
    set: &Scenarios,
    place: u32,
    out: &mut String,
) -> Answer {
    if place >= set.count() {
        return Err(RowErr::Range);
    }
    let fixings = set.fixings(alloc, place)?;
    say_days(decls, &fixings, out)
}

// The scenarios of a table.
fn scenarios_of(alloc: Global, text: &[u8], decls: &Decls) -> Result<Scenarios, RowErr> {
    if text.len() > MOST_COUNTED as usize {
        return Err(RowErr::Range);
    }
    match read_scenarios(alloc, text, decls) {
        Ok(set) => Ok(set),
        Err(_) => Err(RowErr::Text),
    }
}

// Appends what is fixed in a scenario of a table.
fn say_fixed(
    alloc: Global,
    decls: &Decls,
    rows: &Rows<'_>,
    words: &str,
    out: &mut String,
) -> Answer {
    let (table, place) = first_word(words);
    let table = rows.file(table)?;
    let place = count(place)?;
    let set = scenarios_of(alloc, table, decls)?;
    say_scenario(alloc, decls, &set, place, out)
}

/// `fixings CODE TABLE SCENARIO`: what is fixed in a scenario, by its place, of each label of a
/// code file.
pub fn fixed(alloc: Global, rows: &Rows<'_>, text: &[u8], words: &str, out: &mut String) -> Answer {
    let file = code_of(alloc, text)?;
    say_fixed(alloc, &file.decls, rows, words, out)
}
