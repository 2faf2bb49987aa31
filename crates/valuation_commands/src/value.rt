//! The command `value`.

ghost use Rattle.std.specs.Prelude.{◌≡◌, ◌≤◌, ◌+◌, ◌^◌, IfOk, unsigned_abs};
ghost use Rattle.term_model.specs.Declarations.{declarations};
ghost use Rattle.term_model.specs.Environments.{IsAdmitted};
ghost use Rattle.flow_eval.specs.declared.faults.FlowErr.TheVariants as flow;
ghost use Rattle.payoff_terms.specs.CodeBooks.{code_book};
ghost use Rattle.report.specs.ValueLines.{value_text};
ghost use Rattle.command_words.specs.Words.{value_by};
ghost use Rattle.command_courses.specs.FixingTables.{IsStopOf};
ghost use Rattle.command_courses.specs.Inputs.{bytes_of, file_at};
ghost use Rattle.command_courses.specs.Stopping.{GoesDone};
ghost use Rattle.valuation_commands.specs.ValueCourse.{value_course};
ghost use Rattle.valuation_commands.specs.ValueParts.{AnswersValueOver, IsReadable, MayAsk};
ghost use Rattle.valuation_commands.specs.ValueParts.{by_curve, by_tables, inquiry_of};

use crate::asking::{Asking, asking_of, code_of, curve_of};
use command_courses::{Inputs, Stop, fixings_of, stop_of};
use command_words::Value;
use decimal::NoMemory;
use fixing_files::{Curve, Fixings};
use flow_eval::FlowErr;
use payoff_eval::{accepted_scratch, value};
use payoff_terms::CodeFile;
use report::value_line;
use std::alloc::Global;
use term_model::{Decls, Missing};

// What stops a command that lacks a place.
fn stop_of_missing(alloc: Global, decls: &Decls, missing: Missing) -> Stop
    ensures { IsStopOf (declarations decls.now) (flow.Missing missing.label missing.day) result }
{
    let Missing { label, day } = missing;
    stop_of(alloc, decls, FlowErr::Missing { label, day })
}

// What the code is worth over what is fixed.
fn worth(
    alloc: Global,
    file: &CodeFile,
    asking: &Asking,
    fixings: &Fixings,
    curve: &Curve,
) -> Result<i128, Stop>
    requires readable { IsReadable (code_book file.now) }
    requires asks { MayAsk (inquiry_of file.now asking.now) }
    requires admitted { IsAdmitted (declarations file.now.decls) fixings.now }
    ensures { AnswersValueOver (inquiry_of file.now asking.now) fixings.now curve.now result }
{
    let parties = asking.parties;
    let mut scratch = accepted_scratch(alloc)?;
    match value(
        file,
        &asking.setting,
        fixings,
        curve,
        asking.day,
        parties.from,
        parties.to,
        parties.asset,
        &mut scratch,
    ) {
        Ok(amount) => Ok(amount),
        Err(missing) => Err(stop_of_missing(alloc, &file.decls, missing)),
    }
}

// The line of a value, at nine decimals more than amounts.
fn line_of(alloc: Global, amount: i128, amounts: u8) -> Result<Vec<u8>, NoMemory>
    requires size { unsigned_abs amount ≤ 10 ^ 37 }
    requires decimals { amounts ≤ 12 }
    ensures { IfOk result (λ text. text.items ≡ value_text amount (amounts + 9)) }
{
    let mut text = Vec::new(alloc);
    value_line(alloc, &mut text, amount, amounts + 9)?;
    Ok(text)
}

// The line over what is fixed and the curve of the third file.
fn by_curve(
    alloc: Global,
    file: &CodeFile,
    asking: &Asking,
    fixings: &Fixings,
    inputs: Inputs<'_>,
) -> Result<Vec<u8>, Stop>
    requires readable { IsReadable (code_book file.now) }
    requires asks { MayAsk (inquiry_of file.now asking.now) }
    requires admitted { IsAdmitted (declarations file.now.decls) fixings.now }
    ensures { GoesDone (by_curve (inquiry_of file.now asking.now) fixings.now
        (file_at (bytes_of inputs.entry.files.now) 2)) result }
{
    let curve = curve_of(alloc, inputs)?;
    let amount = worth(alloc, file, asking, fixings, &curve)?;
    let text = line_of(alloc, amount, file.decls.amounts)?;
    Ok(text)
}

// The same over the fixings of the second file.
fn by_tables(
    alloc: Global,
    file: &CodeFile,
    asking: &Asking,
    inputs: Inputs<'_>,
) -> Result<Vec<u8>, Stop>
    requires readable { IsReadable (code_book file.now) }
    requires asks { MayAsk (inquiry_of file.now asking.now) }
    ensures { GoesDone (by_tables (inquiry_of file.now asking.now)
        (file_at (bytes_of inputs.entry.files.now) 1)
        (file_at (bytes_of inputs.entry.files.now) 2)) result }
{
    let fixings = fixings_of(alloc, &file.decls, Some(inputs.file(1)))?;
    by_curve(alloc, file, asking, &fixings, inputs)
}

/// The line of what a code file is worth, or what stops the command.
pub fn value_text(alloc: Global, asked: &Value<'_>, inputs: Inputs<'_>) -> Result<Vec<u8>, Stop>
    ensures { GoesDone (value_course (value_by asked.now) (bytes_of inputs.entry.files.now))
        result }
{
    let file = code_of(alloc, inputs)?;
    let asking = asking_of(alloc, &file, asked)?;
    by_tables(alloc, &file, &asking, inputs)
}
