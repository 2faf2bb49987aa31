//! The rows that a table begins with, as long as they are plain.

ghost use Rattle.std.specs.Prelude.{◌≡◌, ◌∷◌, [], IfOk, true};
ghost use Rattle.csv.specs.Reading.{is_bom, strip_bom};
ghost use Rattle.term_model.specs.Declarations.{declarations};
ghost use Rattle.fixing_files.specs.PlainRows.{HasPlainNames, IsFront, rows_of};
ghost use Rattle.fixing_files.specs.Records.{header};
ghost use Rattle.fixing_files.specs.Tables.{table_of};

use crate::plain_rows::row_at;
use crate::reader::MOST_READS;
use crate::rows::{Row, Run, take_row};
use crate::words::{behind_line, is_bare};
use decimal::NoMemory;
use std::alloc::Global;
use term_model::Decls;

/// The records that a table begins with, of which none breaks a rule by itself: how many they are,
/// the rows of each label that they say, and the text behind them.
#[derive(Drop)]
pub struct Front<'a> {
    pub records: u32,
    pub runs: Vec<Run>,
    pub rest: &'a [u8],
}

// Whether these are the bytes of a byte order mark.
fn is_bom(first: u8, second: u8, third: u8) -> bool
    ensures { result ≡ is_bom first second third }
{
    first == 0xEF && second == 0xBB && third == 0xBF
}

// The text behind a byte order mark.
fn unmarked(text: &[u8]) -> &[u8]
    ensures { result.now ≡ strip_bom text.now }
{
    if text.len() < 3 {
        return text;
    }
    if is_bom(text[0], text[1], text[2]) {
        return &text[3..];
    }
    text
}

// Whether the names of all labels are written without quotation marks.
fn names_are_bare(decls: &Decls) -> bool
    ensures { result ≡ true → HasPlainNames (declarations decls.now) }
{
    for number in 0..decls.labels.len() {
        let Some((name, _)) = decls.labels.get_index(number) else {
            return false;
        };
        if !is_bare(name.text()) {
            return false;
        }
    }
    true
}

// The header and the plain rows behind it.
fn plain_front<'a>(alloc: Global, decls: &Decls, rows: &'a [u8]) -> Result<Front<'a>, NoMemory>
    requires { HasPlainNames (declarations decls.now) }
    ensures { IfOk result (λ f.
        IsFront (declarations decls.now) (header ∷ rows_of rows.now)
        f.records f.runs.items (rows_of f.rest.now)) }
{
    let mut runs = Vec::new(alloc);
    let mut rest = rows;
    let mut near = 0;
    for records in 1..MOST_READS {
        let Some((place, value, behind)) = row_at(decls, near, rest) else {
            return Ok(Front {
                records,
                runs,
                rest,
            });
        };
        let row = Row {
            day: place.day,
            number: records + 1,
            value,
        };
        take_row(alloc, &mut runs, place.label, row)?;
        near = place.label;
        rest = behind;
    }
    Err(NoMemory)
}

// A front of no record.
fn unread(alloc: Global, bytes: &[u8]) -> Front<'_>
    ensures records { result.records ≡ 0 }
    ensures runs { result.runs.items ≡ [] }
    ensures rest { result.rest.now ≡ bytes.now }
{
    Front {
        records: 0,
        runs: Vec::new(alloc),
        rest: bytes,
    }
}

/// The records that a table begins with, as long as they are plain. A text behind them that begins
/// with a byte order mark would lose it, and so such a table is not read here.
pub fn front_of<'a>(alloc: Global, bytes: &'a [u8], decls: &Decls) -> Result<Front<'a>, NoMemory>
    ensures { IfOk result (λ f.
        IsFront (declarations decls.now) (table_of bytes.now)
        f.records f.runs.items (table_of f.rest.now)) }
{
    let text = unmarked(bytes);
    let Some(rows) = behind_line(b"label,day,value", text) else {
        return Ok(unread(alloc, bytes));
    };
    if !names_are_bare(decls) {
        return Ok(unread(alloc, bytes));
    }
    let front = plain_front(alloc, decls, rows)?;
    let behind = unmarked(front.rest);
    if behind.len() < front.rest.len() {
        return Ok(unread(alloc, bytes));
    }
    Ok(front)
}
