//! Dates at a setting.

ghost use Rattle.std.specs.Prelude.{◌≡◌, ◌≤◌, ◌<◌, ◌≤ℤ◌, ◌+ℤ◌, ◌^◌, All, length, pos};
ghost use Rattle.term_model.specs.Limits.{most_days};
ghost use Rattle.expr_eval.specs.Fits.{IsDay};
ghost use Rattle.payoff_terms.specs.TemplateDates.{date, day_of, sum_at};
ghost use Rattle.payoff_eval.specs.DatesFit.{DateFits, IsDayOfDate};

use crate::asking::Asking;
use payoff_terms::DateExpr;

// The days that a setting has for templates, added up.
fn days_of(setting: &[u32], names: &[u32]) -> u64
    requires declared { All (λ t. t < length setting.now) names.now }
    requires small { sum_at setting.now names.now ≤ 10 ^ 12 }
    ensures { result ≡ sum_at setting.now names.now }
{
    let mut total = 0u64;
    for i in 0..names.len() {
        total += setting[names[i] as usize] as u64;
    }
    total
}

// The day of a date at a setting, counted from a base.
fn day_at(setting: &[u32], x: &DateExpr) -> i64
    requires { DateFits setting.now (date x.now) }
    ensures { result ≡ day_of setting.now (date x.now) }
{
    let days = x.days as i64;
    days + days_of(setting, x.names.as_slice()) as i64
}

/// The day of a date at a base.
pub fn day_of(asking: &Asking, base: i64, x: &DateExpr) -> i64
    requires base { IsDay base }
    requires date { DateFits asking.now.setting.now (date x.now) }
    ensures day { result ≡ base +ℤ day_of asking.now.setting.now (date x.now) }
    ensures near { IsDayOfDate result }
{
    base + day_at(asking.setting, x)
}

/// The days of a loop.
pub fn count(asking: &Asking, x: &DateExpr) -> u32
    requires date { DateFits asking.now.setting.now (date x.now) }
    requires low { pos 0 ≤ℤ day_of asking.now.setting.now (date x.now) }
    requires high { day_of asking.now.setting.now (date x.now) ≤ℤ pos most_days }
    ensures value { pos result ≡ day_of asking.now.setting.now (date x.now) }
    ensures few { result ≤ most_days }
{
    day_at(asking.setting, x) as u32
}
