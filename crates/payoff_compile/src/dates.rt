//! Dates of code: later ones, and those of day counts.

ghost use Rattle.std.specs.Prelude.{◌≡◌, ◌≤◌, IfOk, [], unsigned_abs};
ghost use Rattle.term_model.specs.Limits.{most_days};
ghost use Rattle.term_model.specs.DayCounts.{day_count};
ghost use Rattle.term_model.specs.Flows.{count_of};
ghost use Rattle.payoff_terms.specs.TemplateDates.{date, date_of_days, insert_names, plus};

use decimal::NoMemory;
use payoff_terms::{DateExpr, Dating, put_in_order, with_name};
use std::alloc::Global;
use term_model::{DaySum, Days};

// The names of a sum, in rising order.
fn in_order(alloc: Global, sum: &DaySum) -> Result<Vec<u32>, NoMemory>
    ensures { IfOk result (λ v. v.items ≡ insert_names sum.now.names.items []) }
{
    let mut names = Vec::from_slice(alloc, sum.names.as_slice())?;
    put_in_order(&mut names);
    Ok(names)
}

// Names with further ones among them, in rising order.
fn with_names(alloc: Global, more: &[u32], names: &[u32]) -> Result<Vec<u32>, NoMemory>
    ensures { IfOk result (λ v. v.items ≡ insert_names more.now names.now) }
{
    let mut all = Vec::from_slice(alloc, names)?;
    for i in 0..more.len() {
        all = with_name(alloc, all.as_slice(), more[more.len() - 1 - i])?;
    }
    Ok(all)
}

/// The date as many days later as a day count has.
pub fn later(alloc: Global, on: &DateExpr, days: &Days) -> Result<DateExpr, NoMemory>
    requires count { count_of (day_count days.now) ≤ most_days }
    requires date { unsigned_abs on.now.days ≤ 1_000_000 }
    ensures { IfOk result (λ r. date r ≡ plus (date on.now) (date_of_days (day_count days.now))) }
{
    match days {
        Days::Num { days } => on.date_at(alloc, *days as i32),
        Days::Named { template } => {
            let names = with_name(alloc, on.names.as_slice(), *template)?;
            Ok(DateExpr {
                days: on.days,
                names,
            })
        }
        Days::Sum { sum } => {
            let more = in_order(alloc, sum)?;
            let names = with_names(alloc, more.as_slice(), on.names.as_slice())?;
            Ok(DateExpr {
                days: on.days + sum.days as i32,
                names,
            })
        }
    }
}

/// A day count as a date.
pub fn date_of(alloc: Global, days: &Days) -> Result<DateExpr, NoMemory>
    requires count { count_of (day_count days.now) ≤ most_days }
    ensures { IfOk result (λ r. date r ≡ date_of_days (day_count days.now)) }
{
    match days {
        Days::Num { days } => Ok(DateExpr {
            days: *days as i32,
            names: Vec::new(alloc),
        }),
        Days::Named { template } => {
            let names = Vec::from_slice(alloc, &[*template])?;
            Ok(DateExpr { days: 0, names })
        }
        Days::Sum { sum } => {
            let names = in_order(alloc, sum)?;
            Ok(DateExpr {
                days: sum.days as i32,
                names,
            })
        }
    }
}
