//! The lines of a total.

ghost use Rattle.std.specs.Prelude.{◌≡◌, ◌≤◌, ◌<◌, ◌++◌, length, codes, OnOk, OnErr};
ghost use Rattle.decimal.specs.Appending.{AppendsPart};
ghost use Rattle.decimal.specs.Text.{text_of};
ghost use Rattle.interval_check.specs.Safety.{IsSmall};
ghost use Rattle.scenario_set.specs.Totals.{value_at};
ghost use Rattle.scenario_set.specs.TotalLines.{AreValuesOf, CanBeWritten, ends_text, last_text};
ghost use Rattle.scenario_set.specs.TotalLines.{line_text, marked_text, name_at, sums_text};
ghost use Rattle.scenario_set.specs.TotalLines.{total_text, valued, values_text, words_text};

use crate::line_parts::{Decimals, NamedValue};
use crate::means::mean;
use crate::outcomes::Totals;
use crate::scenarios::Scenarios;
use decimal::{Mode, NoMemory, write};
use std::alloc::Global;

// Appends words and a comma.
fn append_words(out: &mut Vec<u8>, words: &[u8]) -> Result<(), NoMemory>
    ensures ok { OnOk result (out.new.items ≡ out.old.items ++ words_text words.now) }
    ensures err { OnErr result (AppendsPart out.old.items (words_text words.now) out.new.items) }
{
    out.extend_from_slice(words)?;
    out.push(b',')?;
    Ok(())
}

// Appends a number and the end of its line.
fn append_number(
    alloc: Global,
    out: &mut Vec<u8>,
    mantissa: i128,
    decimals: Decimals,
) -> Result<(), NoMemory>
    requires { IsSmall mantissa }
    ensures ok { OnOk result (out.new.items
        ≡ out.old.items ++ (text_of mantissa decimals.count ++ codes "\n")) }
    ensures err { OnErr result (AppendsPart out.old.items
        (text_of mantissa decimals.count ++ codes "\n") out.new.items) }
{
    write(alloc, out, mantissa, decimals.count)?;
    out.push(b'\n')?;
    Ok(())
}

// Appends a line of words and a number.
fn append_line(
    alloc: Global,
    out: &mut Vec<u8>,
    words: &[u8],
    mantissa: i128,
    decimals: Decimals,
) -> Result<(), NoMemory>
    requires { IsSmall mantissa }
    ensures ok { OnOk result (out.new.items
        ≡ out.old.items ++ line_text words.now mantissa decimals.count) }
    ensures err { OnErr result (AppendsPart out.old.items
        (line_text words.now mantissa decimals.count) out.new.items) }
{
    append_words(out, words)?;
    append_number(alloc, out, mantissa, decimals)
}

// Appends a line of a word, a name and its value.
fn append_marked(
    alloc: Global,
    out: &mut Vec<u8>,
    word: &[u8],
    named: &NamedValue<'_>,
    decimals: Decimals,
) -> Result<(), NoMemory>
    ensures ok { OnOk result (out.new.items ≡ out.old.items
        ++ marked_text word.now named.now.name.now named.now.value decimals.count) }
    ensures err { OnErr result (AppendsPart out.old.items
        (marked_text word.now named.now.name.now named.now.value decimals.count) out.new.items) }
{
    append_words(out, word)?;
    append_line(alloc, out, named.name, named.value, decimals)
}

// Appends the line of each scenario.
fn append_values(
    alloc: Global,
    out: &mut Vec<u8>,
    set: &Scenarios,
    values: &[i128],
    decimals: Decimals,
) -> Result<(), NoMemory>
    requires { AreValuesOf set.now values.now }
    ensures ok { OnOk result (out.new.items
        ≡ out.old.items ++ values_text set.now values.now decimals.count) }
    ensures err { OnErr result (AppendsPart out.old.items
        (values_text set.now values.now decimals.count) out.new.items) }
{
    let count = set.count();
    for i in 0..count {
        append_line(alloc, out, set.name(i).text(), values[i as usize], decimals)?;
    }
    Ok(())
}

// Appends the lines of the total and of the mean.
fn append_sums(
    alloc: Global,
    out: &mut Vec<u8>,
    total: i128,
    mean: i128,
    decimals: Decimals,
) -> Result<(), NoMemory>
    requires total { IsSmall total }
    requires mean { IsSmall mean }
    ensures ok { OnOk result (out.new.items
        ≡ out.old.items ++ sums_text total mean decimals.count) }
    ensures err { OnErr result (AppendsPart out.old.items
        (sums_text total mean decimals.count) out.new.items) }
{
    append_line(alloc, out, b"total", total, decimals)?;
    append_line(alloc, out, b"mean", mean, decimals)
}

// The value in a scenario.
fn value_in<'a>(set: &'a Scenarios, totals: &Totals, i: u32) -> NamedValue<'a>
    requires totals { CanBeWritten set.now totals.now }
    requires scenario { i < length set.now }
    ensures name { result.name.now ≡ name_at set.now i }
    ensures value { result.value ≡ value_at totals.now.values.items i }
{
    NamedValue {
        name: set.name(i).text(),
        value: totals.values[i as usize],
    }
}

// Appends the lines of the least and of the greatest value.
fn append_ends(
    alloc: Global,
    out: &mut Vec<u8>,
    least: &NamedValue<'_>,
    greatest: &NamedValue<'_>,
    decimals: Decimals,
) -> Result<(), NoMemory>
    ensures ok { OnOk result (out.new.items
        ≡ out.old.items ++ ends_text (valued least.now) (valued greatest.now) decimals.count) }
    ensures err { OnErr result (AppendsPart out.old.items
        (ends_text (valued least.now) (valued greatest.now) decimals.count) out.new.items) }
{
    append_marked(alloc, out, b"least", least, decimals)?;
    append_marked(alloc, out, b"greatest", greatest, decimals)
}

// Appends the lines behind those of the scenarios.
fn append_last(
    alloc: Global,
    out: &mut Vec<u8>,
    set: &Scenarios,
    totals: &Totals,
    mode: Mode,
    decimals: Decimals,
) -> Result<(), NoMemory>
    requires { CanBeWritten set.now totals.now }
    ensures ok { OnOk result (out.new.items
        ≡ out.old.items ++ last_text set.now totals.now mode decimals.count) }
    ensures err { OnErr result (AppendsPart out.old.items
        (last_text set.now totals.now mode decimals.count) out.new.items) }
{
    let mean = mean(totals.total, set.count(), mode);
    append_sums(alloc, out, totals.total, mean, decimals)?;
    let least = value_in(set, totals, totals.least);
    let greatest = value_in(set, totals, totals.greatest);
    append_ends(alloc, out, &least, &greatest, decimals)
}

/// Appends the lines of a total: `NAME,VALUE` for each scenario of the set, then `total,VALUE`,
/// `mean,VALUE` as the mode rounds it, `least,NAME,VALUE` and `greatest,NAME,VALUE`, each number
/// with so many decimals. On `NoMemory` a front part of them stands.
pub fn total_lines(
    alloc: Global,
    out: &mut Vec<u8>,
    set: &Scenarios,
    totals: &Totals,
    mode: Mode,
    scale: u8,
) -> Result<(), NoMemory>
    requires totals { CanBeWritten set.now totals.now }
    requires scale { scale ≤ 27 }
    ensures ok { OnOk result (out.new.items
        ≡ out.old.items ++ total_text set.now totals.now mode scale) }
    ensures err { OnErr result (AppendsPart out.old.items
        (total_text set.now totals.now mode scale) out.new.items) }
{
    let decimals = Decimals { count: scale };
    append_values(alloc, out, set, &totals.values, decimals)?;
    append_last(alloc, out, set, totals, mode, decimals)
}
