//! What is observed under a label, tried on one day after another.

ghost use Rattle.std.specs.Prelude.{◌≡◌, ◌≤◌, ◌<◌, ◌^◌, ◌+◌, ◌+ℤ◌, ◌*ℤ◌, pos, length, unsigned_abs, IfSome};
ghost use Rattle.fixing_files.specs.Runs.{LendsDays};
ghost use Rattle.expr_eval.specs.Stops.{first_stop};
ghost use Rattle.expr_eval.specs.Watching.{is_met, met_on};

use crate::blocks::{BLOCK, days_in_block, is_passed};
use crate::operations::compare_aligned;
use crate::stops::{Stop, is_wanted};
use fixing_files::{FixedDay, Fixings};
use term_model::{CmpOp, Missing, Value, days_later};

/// What is asked of a value: whether it is true, or how it compares with a number after it is
/// multiplied.
#[derive(Clone, Copy)]
pub enum Trial {
    Flag,
    Number { op: CmpOp, factor: i64, bound: i128 },
}

/// A trial of what is observed under a label, some days later, and the outcome that is wanted.
#[derive(Clone, Copy)]
pub struct Watch {
    pub label: u32,
    pub offset: i32,
    pub trial: Trial,
    pub wanted: bool,
}

// Where a day stands in a run if no day is missing since the first of the run.
fn index_without_gaps(run: &[FixedDay], day: i64) -> Option<usize>
    ensures { IfSome result (λ at. at < length run.now) }
{
    let since = day.checked_sub(run.first()?.day)?;
    let at = usize::try_from(since).ok()?;
    if run.get(at)?.day == day {
        Some(at)
    } else {
        None
    }
}

/// Where a day stands in a run, or where it would. Most runs have no gaps.
pub fn index_of(run: &[FixedDay], day: i64) -> usize
    ensures { result < 2 ^ 63 }
{
    if let Some(at) = index_without_gaps(run, day) {
        return at;
    }
    match run.binary_search_by_key(&day, |fixed| fixed.day) {
        Ok(at) => at,
        Err(at) => at,
    }
}

/// A number in 64 bits.
#[inline(always)]
pub fn in_word(x: i128) -> Option<i64>
    ensures { IfSome result (λ y. y ≡ x) }
{
    i64::try_from(x).ok()
}

/// A number times a factor, where a word holds it.
#[inline(always)]
pub fn brought(x: i128, factor: i64) -> Option<i128>
    ensures { IfSome result (λ y. y ≡ x *ℤ factor) }
{
    if factor == 1 {
        return Some(x);
    }
    let x = i64::try_from(x).ok()?;
    Some(x as i128 * factor as i128)
}

// Whether a value meets a watch; none where it is too large for a word.
#[inline(always)]
fn is_met(watch: Watch, value: &Value) -> Option<bool>
    ensures { IfSome result (λ b. b ≡ is_met watch value.now) }
{
    match watch.trial {
        Trial::Flag => Some(is_wanted(watch.wanted, value.is_true())),
        Trial::Number { op, factor, bound } => {
            let x = brought(value.number(), factor)?;
            Some(is_wanted(watch.wanted, compare_aligned(op, x, bound)))
        }
    }
}

// The same of what is found on a day, which is first sought at an index of the label's run.
#[inline(always)]
fn met_near(
    watch: Watch,
    fixings: &Fixings,
    run: &[FixedDay],
    at: usize,
    day: i64,
) -> Option<Result<bool, Missing>>
    requires { LendsDays fixings.now watch.label run.now }
    ensures { IfSome result (λ r. r ≡ met_on watch fixings.now day) }
{
    if at < run.len() {
        let fixed = &run[at];
        if fixed.day == day {
            return Some(Ok(is_met(watch, &fixed.value)?));
        }
    }
    met_somewhere(watch, fixings, day)
}

// The same of what is found on a day.
fn met_somewhere(watch: Watch, fixings: &Fixings, day: i64) -> Option<Result<bool, Missing>>
    ensures { IfSome result (λ r. r ≡ met_on watch fixings.now day) }
{
    match fixings.get(watch.label, day) {
        Some(value) => Some(Ok(is_met(watch, &value)?)),
        None => Some(Err(Missing {
            label: watch.label,
            day,
        })),
    }
}

// Where a watch stops over some days, of which the first is sought at an index of the label's run.
// No day before that one is missing, so each stands in the run behind the one before it.
#[inline(never)]
fn first_near(
    watch: Watch,
    fixings: &Fixings,
    run: &[FixedDay],
    start: usize,
    first: i64,
    days: u32,
) -> Option<Stop>
    requires lends { LendsDays fixings.now watch.label run.now }
    requires start { start ≤ 2 ^ 63 + 2 ^ 32 }
    requires day { unsigned_abs first ≤ 2 ^ 62 }
    ensures { IfSome result (λ s. s ≡ first_stop days
        (λ i. met_on watch fixings.now (first +ℤ pos i))) }
{
    for i in 0..days {
        let day = days_later(first, i);
        let at = start + i as usize;
        match met_near(watch, fixings, run, at, day)? {
            Ok(met) => {
                if met {
                    return Some(Stop::Met { day: i });
                }
            }
            Err(missing) => return Some(Stop::Lacking { day: i, missing }),
        }
    }
    Some(Stop::Never)
}

/// Where a watch stops over some days; none where a number on the way is too large. It passes over
/// a block of days at once where none of its numbers can meet the watch.
pub fn first_met(watch: Watch, fixings: &Fixings, first: i64, days: u32) -> Option<Stop>
    requires { unsigned_abs first ≤ 2 ^ 61 + 2 ^ 32 }
    ensures { IfSome result (λ s. s ≡ first_stop days
        (λ i. met_on watch fixings.now (first +ℤ pos i))) }
{
    let run = fixings.run_of(watch.label);
    let start = index_of(run.days, first);
    let mut done = 0;
    while done < days {
        let day = days_later(first, done);
        let at = start + done as usize;
        let left = days - done;
        if left >= BLOCK && is_passed(watch, run, at, day) {
            done += BLOCK;
        } else {
            let count = left.min(days_in_block(at));
            let stop = first_near(watch, fixings, run.days, at, day, count)?;
            if !stop.goes_on() {
                return Some(stop.counted_from(done));
            }
            done += count;
        }
    }
    Some(Stop::Never)
}
