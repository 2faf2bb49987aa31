//! What one record says.

ghost use Rattle.std.specs.Prelude.{◌≡◌, ◌∷◌, [], IfSome, Some, option_map, true};
ghost use Rattle.csv.specs.Records.{fields_of};
ghost use Rattle.term_model.specs.Declarations.{declarations};
ghost use Rattle.term_model.specs.Environments.{label_of};
ghost use Rattle.term_model.specs.Limits.{is_label, is_origin};
ghost use Rattle.fixing_files.specs.Records.{day_said, label_named, said};
ghost use Rattle.fixing_files.specs.Steps.{Tells, is_header, three_of};

use crate::days::day_of_text;
use crate::faults::RowKind;
use crate::values::value_of;
use csv::ByteRecord;
use term_model::{Decls, LAST_FIXED_DAY, Label, Value};

/// A label, by its number among the declared ones, and a day of the portfolio.
#[derive(Clone, Copy, Debug, PartialEq, Eq, PartialOrd, Ord, Drop)]
pub struct Place {
    pub label: u32,
    pub day: i64,
}

// The fields of a record of three.
fn three(record: &ByteRecord) -> Option<(&[u8], &[u8], &[u8])>
    ensures { option_map (λ r. (r.0.now, r.1.now, r.2.now)) result
        ≡ three_of (fields_of «record».now) }
{
    if record.len() == 3 {
        Some((record.get(0)?, record.get(1)?, record.get(2)?))
    } else {
        None
    }
}

/// Whether the record is the header of a table of fixings.
pub fn is_header(record: &ByteRecord) -> bool
    ensures { result ≡ is_header (fields_of «record».now) }
{
    match three(record) {
        Some((label, day, value)) => label == b"label".as_slice()
            && day == b"day".as_slice()
            && value == b"value".as_slice(),
        None => false,
    }
}

/// The place of a declared label, and what is declared.
pub fn label_named(decls: &Decls, name: &[u8]) -> Option<(u32, Label)>
    ensures place { option_map (λ p. p.0) result ≡ label_named (declarations decls.now) name.now }
    ensures declared { IfSome result (λ p. label_of (declarations decls.now) p.0 ≡ Some p.1) }
    ensures limits { IfSome result (λ p. is_label p.1 ≡ true) }
{
    match decls.labels.get_full(name) {
        Some((place, _, label)) => Some((place as u32, *label)),
        None => None,
    }
}

/// The day of a fixing.
pub fn day_said(origin: Option<i64>, text: &[u8]) -> Option<i64>
    requires { is_origin origin ≡ true }
    ensures { result ≡ day_said origin text.now }
{
    match day_of_text(origin, text) {
        Ok(day) if -LAST_FIXED_DAY <= day && day <= LAST_FIXED_DAY => Some(day),
        _ => None,
    }
}

/// The value that the texts of a label, a day and a value say is fixed, and the place, or the first
/// rule that they break.
#[tactic(auto, unfolding(crate::specs::Records::said))]
pub fn entry_at(
    decls: &Decls,
    name: &[u8],
    day: &[u8],
    value: &[u8],
) -> Result<(Place, Value), RowKind>
    ensures { Tells (said (declarations decls.now) (name.now ∷ day.now ∷ value.now ∷ [])) result }
{
    let Some((label, declared)) = label_named(decls, name) else {
        return Err(RowKind::Label);
    };
    let Some(day) = day_said(decls.origin, day) else {
        return Err(RowKind::Day);
    };
    match value_of(declared, value) {
        Ok(value) => Ok((Place { label, day }, value)),
        Err(kind) => Err(kind),
    }
}

/// The value that a record says is fixed, and the place, or the first rule that the record breaks.
#[tactic(auto, unfolding(crate::specs::Records::said))]
pub fn entry_of(decls: &Decls, record: &ByteRecord) -> Result<(Place, Value), RowKind>
    ensures { Tells (said (declarations decls.now) (fields_of «record».now)) result }
{
    let Some((name, day, value)) = three(record) else {
        return Err(RowKind::Shape);
    };
    entry_at(decls, name, day, value)
}
