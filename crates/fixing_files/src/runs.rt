//! Runs of days: the fixings of one label.

ghost use Rattle.std.specs.Prelude.{◌≡◌, IfErr, IfOk, IfSome, Contains};
ghost use Rattle.fixing_files.specs.Runs.{IsRising, value_on};
ghost use Rattle.fixing_files.specs.RunPlaces.{IsGapFor, IsOn};

use term_model::Value;

/// A day of the portfolio on which a label is fixed, and the value.
#[derive(Clone, Copy, Debug, PartialEq, Eq)]
pub struct FixedDay {
    pub day: i64,
    pub value: Value,
}

/// Where a day stands in a run, or where it would.
pub fn search(run: &[FixedDay], day: i64) -> Result<usize, usize>
    requires { IsRising run.now }
    ensures found { IfOk result (λ i. IsOn run.now day i) }
    ensures absent { IfErr result (λ i. IsGapFor run.now day i) }
{
    run.binary_search_by_key(&day, |fixed| fixed.day)
}

// The value of a day that stands where it would if no day were missing since the first of the run.
fn without_gaps(run: &[FixedDay], day: i64) -> Option<Value>
    ensures { IfSome result (λ v. Contains run.now (record { day = day; value = v })) }
{
    let since = day.checked_sub(run.first()?.day)?;
    let fixed = run.get(usize::try_from(since).ok()?)?;
    if fixed.day == day {
        Some(fixed.value)
    } else {
        None
    }
}

/// The value of a day of a run. Most runs have no gaps, so it is first sought where it would then
/// stand.
pub fn value_on(run: &[FixedDay], day: i64) -> Option<Value>
    requires { IsRising run.now }
    ensures { result ≡ value_on run.now day }
{
    if let Some(value) = without_gaps(run, day) {
        return Some(value);
    }
    match search(run, day) {
        Ok(at) => Some(run[at].value),
        Err(_) => None,
    }
}
