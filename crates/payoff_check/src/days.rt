//! The days of dates at a setting.

ghost use Rattle.std.specs.Prelude.{◌≡◌, ◌≤◌, ◌^◌, slice_index};
ghost use Rattle.payoff_terms.specs.TemplateDates.{date, day_of, sum_at};
ghost use Rattle.payoff_terms.specs.CodeAcceptance as rule;

use payoff_terms::DateExpr;
use term_model::{GREATEST_DATE_NUMBER, MOST_DAYS};

// The number that a setting has for a template, and 0 where it has none.
fn number_at(setting: &[u32], name: u32) -> u32
    ensures { result ≡ slice_index setting.now name }
{
    if (name as usize) < setting.len() {
        setting[name as usize]
    } else {
        0
    }
}

// The numbers of templates, added up. A date may name millions of them, so the sum may leave 32
// bits.
fn days_of(setting: &[u32], names: &[u32]) -> u128
    ensures sum { result ≡ sum_at setting.now names.now }
    ensures few { result ≤ 2 ^ 96 }
{
    let mut total = 0u128;
    for i in 0..names.len() {
        total += number_at(setting, names[i]) as u128;
    }
    total
}

/// The day of a date at a setting, counted from the base.
pub fn day_at(setting: &[u32], on: &DateExpr) -> i128
    ensures { result ≡ day_of setting.now (date on.now) }
{
    on.days as i128 + days_of(setting, on.names.as_slice()) as i128
}

/// Whether a date is within its range.
pub fn is_date(day: i128) -> bool
    ensures { result ≡ rule.is_date day }
{
    -GREATEST_DATE_NUMBER as i128 <= day && day <= GREATEST_DATE_NUMBER as i128
}

/// Whether the last day of a `loop` is within its range.
pub fn is_upto(day: i128) -> bool
    ensures { result ≡ rule.is_upto day }
{
    0 <= day && day <= MOST_DAYS as i128
}
