//! The lines of faults.

ghost use Rattle.std.specs.Prelude.{◌≡◌, ◌++◌, OnOk, OnErr};
ghost use Rattle.decimal.specs.Appending.{AppendsPart};
ghost use Rattle.report.specs.Pieces.{IsWritable, number_text, piece_text};
ghost use Rattle.report.specs.CheckLines.{line_feed};
ghost use Rattle.report.specs.FaultLines.{earlier_text, fault_text, kind_text, missing_text};
ghost use Rattle.report.specs.FaultLines.{refused_text, row_fault_text, row_text, text_fault_text};

use crate::check_lines::rule_word;
use crate::pieces::{Piece, append, whole};
use contract_grammar::{TextFault, TextKind};
use decimal::NoMemory;
use fixing_files::{RowFault, RowKind};
use std::alloc::Global;
use term_model::{Name, Rule};

/// What keeps a command from its answer. A place is that of a file in the command's form, from 1.
#[derive(Debug, PartialEq, Eq, Drop)]
pub enum Fault {
    /// The words are no command.
    Usage,
    /// A file could not be read.
    Read {
        place: u8,
    },
    /// A file is longer than the limit.
    TooLong {
        place: u8,
    },
    /// A text is not in its grammar.
    Text(TextFault),
    /// A name of the words is not declared.
    UnknownName {
        name: Name,
    },
    /// A day of the words is out of range. The word is as it was given.
    Day {
        word: Name,
    },
    /// A contract that the command uses is not accepted.
    Refused {
        name: Name,
        rule: Rule,
        node: u32,
    },
    /// A record of a table is refused.
    Row {
        place: u8,
        fault: RowFault,
    },
    /// A label is not fixed on a day of the portfolio on which it is read.
    Missing {
        label: Name,
        day: i64,
    },
    /// So many scenarios that their total need not fit.
    Scenarios {
        count: u32,
    },
    /// A label is not fixed in a scenario, on a day on which it is read.
    MissingIn {
        label: Name,
        day: i64,
        scenario: Name,
    },
}

fn kind_word(kind: TextKind) -> &'static [u8]
    ensures { result.now ≡ kind_text kind }
{
    match kind {
        TextKind::Syntax => b"syntax",
        TextKind::Number => b"number",
        TextKind::Date => b"date",
        TextKind::Deep => b"deep",
        TextKind::Range => b"range",
        TextKind::Twice => b"twice",
        TextKind::Unknown => b"unknown",
        TextKind::Utf8 => b"utf8",
    }
}

fn row_word(kind: RowKind) -> &'static [u8]
    ensures { result.now ≡ row_text kind }
{
    match kind {
        RowKind::Shape => b"shape",
        RowKind::Label => b"label",
        RowKind::Day => b"day",
        RowKind::Value => b"value",
        RowKind::Bounds => b"bounds",
        RowKind::Conflict { .. } => b"conflict with ",
        RowKind::Factor => b"factor",
        RowKind::Rising => b"rising",
        RowKind::Zero => b"zero",
    }
}

// The record that another one conflicts with.
fn earlier_piece<'a>(kind: RowKind) -> Piece<'a>
    ensures text { piece_text result ≡ earlier_text kind }
    ensures writable { IsWritable result }
{
    match kind {
        RowKind::Conflict { earlier } => whole(earlier),
        _ => Piece::Words(b""),
    }
}

// Words, a number and the end of the line.
fn count_line(alloc: Global, out: &mut Vec<u8>, words: &[u8], count: u32) -> Result<(), NoMemory>
    ensures ok { OnOk result (out.new.items ≡ out.old.items
        ++ (words.now ++ (number_text count ++ line_feed))) }
    ensures err { OnErr result (AppendsPart out.old.items
        (words.now ++ (number_text count ++ line_feed)) out.new.items) }
{
    let pieces = [Piece::Words(words), whole(count), Piece::Words(b"\n")];
    append(alloc, out, &pieces)
}

// Words, a name and the end of the line.
fn name_line<'a>(
    alloc: Global,
    out: &mut Vec<u8>,
    words: &'a [u8],
    name: &'a [u8],
) -> Result<(), NoMemory>
    ensures ok { OnOk result (out.new.items ≡ out.old.items
        ++ (words.now ++ (name.now ++ line_feed))) }
    ensures err { OnErr result (AppendsPart out.old.items
        (words.now ++ (name.now ++ line_feed)) out.new.items) }
{
    let pieces = [Piece::Words(words), Piece::Words(name), Piece::Words(b"\n")];
    append(alloc, out, &pieces)
}

fn text_line(alloc: Global, out: &mut Vec<u8>, fault: &TextFault) -> Result<(), NoMemory>
    ensures ok { OnOk result (out.new.items ≡ out.old.items ++ text_fault_text fault.now) }
    ensures err { OnErr result (AppendsPart out.old.items
        (text_fault_text fault.now) out.new.items) }
{
    let pieces = [
        Piece::Words(b"fault text "),
        Piece::Words(kind_word(fault.kind)),
        Piece::Words(b" line "),
        whole(fault.line),
        Piece::Words(b" column "),
        whole(fault.column),
        Piece::Words(b"\n"),
    ];
    append(alloc, out, &pieces)
}

fn refused_line(
    alloc: Global,
    out: &mut Vec<u8>,
    name: &[u8],
    rule: Rule,
    node: u32,
) -> Result<(), NoMemory>
    ensures ok { OnOk result (out.new.items ≡ out.old.items ++ refused_text name.now rule node) }
    ensures err { OnErr result (AppendsPart out.old.items
        (refused_text name.now rule node) out.new.items) }
{
    let pieces = [
        Piece::Words(b"fault refused "),
        Piece::Words(name),
        Piece::Words(b" "),
        Piece::Words(rule_word(rule)),
        Piece::Words(b" node "),
        whole(node),
        Piece::Words(b"\n"),
    ];
    append(alloc, out, &pieces)
}

fn row_line(alloc: Global, out: &mut Vec<u8>, place: u8, fault: &RowFault) -> Result<(), NoMemory>
    ensures ok { OnOk result (out.new.items ≡ out.old.items ++ row_fault_text place fault.now) }
    ensures err { OnErr result (AppendsPart out.old.items
        (row_fault_text place fault.now) out.new.items) }
{
    let pieces = [
        Piece::Words(b"fault row file "),
        whole(place as u32),
        Piece::Words(b" record "),
        whole(fault.row),
        Piece::Words(b" "),
        Piece::Words(row_word(fault.kind)),
        earlier_piece(fault.kind),
        Piece::Words(b"\n"),
    ];
    append(alloc, out, &pieces)
}

// The line of a label that is not fixed on a day, with what stands behind the day.
fn missing_line<'a>(
    alloc: Global,
    out: &mut Vec<u8>,
    label: &'a [u8],
    day: i64,
    behind: &'a [u8],
    scenario: &'a [u8],
) -> Result<(), NoMemory>
    ensures ok { OnOk result (out.new.items ≡ out.old.items
        ++ missing_text label.now day (behind.now ++ (scenario.now ++ line_feed))) }
    ensures err { OnErr result (AppendsPart out.old.items
        (missing_text label.now day (behind.now ++ (scenario.now ++ line_feed))) out.new.items) }
{
    let pieces = [
        Piece::Words(b"fault missing "),
        Piece::Words(label),
        Piece::Words(b" "),
        Piece::Number {
            mantissa: day as i128,
            scale: 0,
        },
        Piece::Words(behind),
        Piece::Words(scenario),
        Piece::Words(b"\n"),
    ];
    append(alloc, out, &pieces)
}

/// Appends the line of a fault. Where memory runs out on the way, a front part of that line may
/// stand in `out` already.
pub fn fault_line(alloc: Global, out: &mut Vec<u8>, fault: &Fault) -> Result<(), NoMemory>
    ensures ok { OnOk result (out.new.items ≡ out.old.items ++ fault_text fault.now) }
    ensures err { OnErr result (AppendsPart out.old.items (fault_text fault.now) out.new.items) }
{
    match fault {
        Fault::Usage => append(alloc, out, &[Piece::Words(b"fault usage\n")]),
        Fault::Read { place } => count_line(alloc, out, b"fault read ", *place as u32),
        Fault::TooLong { place } => count_line(alloc, out, b"fault too long ", *place as u32),
        Fault::Text(fault) => text_line(alloc, out, fault),
        Fault::UnknownName { name } => name_line(alloc, out, b"fault unknown ", name.text()),
        Fault::Day { word } => name_line(alloc, out, b"fault day ", word.text()),
        Fault::Refused { name, rule, node } => {
            refused_line(alloc, out, name.text(), *rule, *node)
        }
        Fault::Row { place, fault } => row_line(alloc, out, *place, fault),
        Fault::Missing { label, day } => missing_line(alloc, out, label.text(), *day, b"", b""),
        Fault::Scenarios { count } => count_line(alloc, out, b"fault scenarios ", *count),
        Fault::MissingIn {
            label,
            day,
            scenario,
        } => missing_line(alloc, out, label.text(), *day, b" in ", scenario.text()),
    }
}
