//! The values of fields.

ghost use Rattle.std.specs.Prelude.{◌≡◌, ◌≤◌, Some, true};
ghost use Rattle.decimal.specs.Mantissas.{decimal_of};
ghost use Rattle.term_model.specs.Limits.{is_label};
ghost use Rattle.fixing_files.specs.Records.{mantissa_at, truth_said, value_said, within_bounds};

use crate::faults::RowKind;
use decimal::{decimal_of, widen};
use term_model::{Label, Value};

/// The mantissa of a decimal's text at a scale.
pub fn mantissa(scale: u8, text: &[u8]) -> Option<i128>
    requires { scale ≤ 18 }
    ensures { result ≡ mantissa_at scale (decimal_of text.now) }
{
    let number = decimal_of(text)?;
    if number.scale <= scale {
        widen(number.mant, scale - number.scale)
    } else {
        None
    }
}

// A mantissa within the bounds of its label.
fn bounded(low: i128, high: i128, mant: Option<i128>) -> Result<Value, RowKind>
    ensures { result ≡ within_bounds low high mant }
{
    match mant {
        Some(mant) if low <= mant && mant <= high => Ok(Value::Num { mant }),
        Some(_) => Err(RowKind::Bounds),
        None => Err(RowKind::Value),
    }
}

fn truth(text: &[u8]) -> Result<Value, RowKind>
    ensures { result ≡ truth_said text.now }
{
    if text == b"true".as_slice() {
        Ok(Value::Truth { value: true })
    } else if text == b"false".as_slice() {
        Ok(Value::Truth { value: false })
    } else {
        Err(RowKind::Value)
    }
}

/// The value of a field for an observable, at the scale of its label and within its bounds.
pub fn value_of(label: Label, text: &[u8]) -> Result<Value, RowKind>
    requires { is_label label ≡ true }
    ensures { result ≡ value_said (Some label) text.now }
{
    match label {
        Label::Flag => truth(text),
        Label::Number { scale, low, high } => bounded(low, high, mantissa(scale, text)),
    }
}
