//! Counts of days, and days so many days apart.

ghost use Rattle.std.specs.Prelude.{◌≡◌, ◌≤◌, ◌+ℤ◌, ◌-ℤ◌, ◌+◌, ◌^◌, pos, unsigned_abs, IfOk};
ghost use Rattle.term_model.specs.DayCounts.{day_count};
ghost use Rattle.term_model.specs.Flows.{count_of};

use crate::terms::{DaySum, Days};
use decimal::NoMemory;
use std::alloc::Global;

impl Days {
    /// The number of a day count. A name of a template has none before a setting gives it one, and
    /// counts as 0.
    pub fn number(&self) -> u32
        ensures { result ≡ count_of (day_count self.now) }
    {
        match self {
            Days::Num { days } => *days,
            Days::Named { .. } => 0,
            Days::Sum { sum } => sum.days,
        }
    }

    /// An equal day count.
    pub fn copy(&self, alloc: Global) -> Result<Days, NoMemory>
        ensures { IfOk result (λ r. day_count r ≡ day_count self.now) }
    {
        match self {
            Days::Num { days } => Ok(Days::Num { days: *days }),
            Days::Named { template } => Ok(Days::Named {
                template: *template,
            }),
            Days::Sum { sum } => {
                let names = Vec::from_slice(alloc, sum.names.as_slice())?;
                Ok(Days::Sum {
                    sum: DaySum {
                        days: sum.days,
                        names,
                    },
                })
            }
        }
    }
}

/// The day that is so many days later.
pub fn days_later(day: i64, days: u32) -> i64
    requires { unsigned_abs day ≤ 2 ^ 62 }
    ensures day { result ≡ day +ℤ pos days }
    ensures near { unsigned_abs result ≤ unsigned_abs day + 2 ^ 32 }
{
    day + days as i64
}

/// The day that is so many days earlier.
pub fn days_earlier(day: i64, days: u32) -> i64
    requires { unsigned_abs day ≤ 2 ^ 62 }
    ensures day { result ≡ day -ℤ pos days }
    ensures near { unsigned_abs result ≤ unsigned_abs day + 2 ^ 32 }
{
    day - days as i64
}

/// The day that an observable with an offset reads. The offset may be negative.
pub fn day_read(day: i64, offset: i32) -> i64
    requires { unsigned_abs day ≤ 2 ^ 62 }
    ensures day { result ≡ day +ℤ offset }
    ensures near { unsigned_abs result ≤ unsigned_abs day + 2 ^ 32 }
{
    day + offset as i64
}
