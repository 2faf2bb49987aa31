//! What one record of a table of discount factors says.

ghost use Rattle.std.specs.Prelude.{◌≡◌, option_map};
ghost use Rattle.csv.specs.Records.{fields_of};
ghost use Rattle.fixing_files.specs.CurveRecords.{factor_said, offset_said, row_said};
ghost use Rattle.fixing_files.specs.CurveSteps.{TellsRow, is_curve_header, two_of};

use crate::curves::CurveStep;
use crate::days::count;
use crate::faults::RowKind;
use crate::values::mantissa;
use csv::ByteRecord;
use term_model::LAST_CURVE_OFFSET;

// The greatest factor: 10, in units of 10^-9.
const GREATEST_FACTOR: i128 = 10_000_000_000;

// The fields of a record of two.
fn two(record: &ByteRecord) -> Option<(&[u8], &[u8])>
    ensures { option_map (λ r. (r.0.now, r.1.now)) result ≡ two_of (fields_of «record».now) }
{
    if record.len() == 2 {
        Some((record.get(0)?, record.get(1)?))
    } else {
        None
    }
}

/// Whether the record is the header of a table of discount factors.
pub fn is_curve_header(record: &ByteRecord) -> bool
    ensures { result ≡ is_curve_header (fields_of «record».now) }
{
    match two(record) {
        Some((offset, factor)) => offset == b"offset".as_slice() && factor == b"factor".as_slice(),
        None => false,
    }
}

// The offset of a field.
fn offset_said(text: &[u8]) -> Option<u32>
    ensures { result ≡ offset_said text.now }
{
    match count(text) {
        Some(offset) if offset <= LAST_CURVE_OFFSET => Some(offset),
        _ => None,
    }
}

// The factor of a field.
fn factor_said(text: &[u8]) -> Option<i128>
    ensures { result ≡ factor_said text.now }
{
    match mantissa(9, text) {
        Some(factor) if 0 <= factor && factor <= GREATEST_FACTOR => Some(factor),
        _ => None,
    }
}

/// The row that a record says, or the first rule that it breaks by itself.
#[tactic(auto, unfolding(crate::specs::CurveRecords::row_said))]
pub fn step_of(record: &ByteRecord) -> Result<CurveStep, RowKind>
    ensures { TellsRow (row_said (fields_of «record».now)) result }
{
    let Some((offset, factor)) = two(record) else {
        return Err(RowKind::Shape);
    };
    let Some(offset) = offset_said(offset) else {
        return Err(RowKind::Day);
    };
    match factor_said(factor) {
        Some(factor) => Ok(CurveStep { offset, factor }),
        None => Err(RowKind::Factor),
    }
}
