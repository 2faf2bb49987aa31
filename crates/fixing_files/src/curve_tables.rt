//! Tables of curves, record by record.

ghost use Rattle.std.specs.Prelude.{◌≡◌, ◌≤◌, length};
ghost use Rattle.term_model.specs.Limits.{longest_file};
ghost use Rattle.csv.specs.Records.{fields_of};
ghost use Rattle.fixing_files.specs.Curves.{IsKept, rows_of};
ghost use Rattle.fixing_files.specs.CurveSteps.{EndsCurve, TakesRecord, TellsNext, broken_behind};
ghost use Rattle.fixing_files.specs.CurveSteps.{last_of};
ghost use Rattle.fixing_files.specs.CurveTables.{AnswersCurve};
ghost use Rattle.fixing_files.specs.Tables.{table_of};

use crate::curve_records::{is_curve_header, step_of};
use crate::curves::{Curve, CurveStep};
use crate::faults::{RowErr, RowKind, refused};
use crate::reader::{MOST_READS, reader_of};
use csv::ByteRecord;
use std::alloc::Global;

// The last row.
fn last_of(steps: &[CurveStep]) -> Option<CurveStep>
    ensures { result ≡ last_of steps.now }
{
    steps.last().copied()
}

// The rule that a row breaks behind the last one.
fn broken_behind(last: Option<CurveStep>, step: CurveStep) -> Option<RowKind>
    ensures { result ≡ broken_behind last step }
{
    match last {
        None if step.offset != 0 => Some(RowKind::Zero),
        Some(last) if step.offset <= last.offset => Some(RowKind::Rising),
        _ => None,
    }
}

// The row that a record says behind the last one, or the first rule that it breaks.
fn next_step(last: Option<CurveStep>, record: &ByteRecord) -> Result<CurveStep, RowKind>
    ensures { TellsNext last (fields_of «record».now) result }
{
    let step = step_of(record)?;
    match broken_behind(last, step) {
        None => Ok(step),
        Some(kind) => Err(kind),
    }
}

// Takes the record of this number, or answers the rule that it breaks.
fn take(steps: &mut Vec<CurveStep>, number: u32, record: &ByteRecord) -> Result<(), RowErr>
    requires number { 1 ≤ number }
    ensures { TakesRecord number (fields_of «record».now)
        (rows_of steps.old.items) (rows_of steps.new.items) result }
{
    if number == 1 {
        return if is_curve_header(record) {
            Ok(())
        } else {
            Err(refused(1, RowKind::Shape))
        };
    }
    match next_step(last_of(steps), record) {
        Ok(step) => match steps.push(step) {
            Ok(()) => Ok(()),
            Err(_) => Err(RowErr::NoMemory),
        },
        Err(kind) => Err(refused(number, kind)),
    }
}

// The curve of the rows of all records, by the count of these.
fn ended(steps: Vec<CurveStep>, count: u32) -> Result<Curve, RowErr>
    requires kept { 2 ≤ count → IsKept (rows_of steps.items) }
    ensures { EndsCurve count (rows_of steps.items) result }
{
    match count {
        0 => Err(refused(1, RowKind::Shape)),
        1 => Err(refused(2, RowKind::Zero)),
        _ => Ok(Curve { steps }),
    }
}

/// The curve of a table of at most 16,777,216 bytes: a header `offset,factor`, and then a record
/// for each row, of an offset of one to nine digits up to 2,000,000 days and a factor from 0 to 10
/// with at most 9 decimals. The first offset is 0, and each further one is above the one before.
/// `Row` names the first record that breaks a rule, by its number from 1, the header included; a
/// table without rows is refused at record 2. The records are read one by one.
pub fn read_curve(alloc: Global, bytes: &[u8]) -> Result<Curve, RowErr>
    requires { length bytes.now ≤ longest_file }
    ensures { AnswersCurve (table_of bytes.now) result }
{
    let mut reader = reader_of(alloc, bytes);
    let mut record = ByteRecord::new(alloc);
    let mut steps = Vec::new(alloc);
    for read in 0..MOST_READS {
        let Ok(found) = reader.read_byte_record(&mut record) else {
            return Err(RowErr::NoMemory);
        };
        if !found {
            return ended(steps, read);
        }
        take(&mut steps, read + 1, &record)?;
    }
    Err(RowErr::NoMemory)
}
