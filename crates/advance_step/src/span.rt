//! The days that are gone by.

ghost use Rattle.std.specs.Prelude.{◌≡◌, ◌≤◌, ◌≤ℤ◌, ◌+◌, ◌-◌, ◌*◌, ◌+ℤ◌, ◌-ℤ◌, min, pos};
ghost use Rattle.term_model.specs.Limits.{last_start};

use term_model::{days_earlier, days_later};

/// The days gone by for a part of a contract: the one on which it stands, and the `last` behind it.
#[derive(Clone, Copy)]
pub struct Span {
    pub day: i64,
    pub last: u32,
    pub ghost first: { pos 0 ≤ℤ day },
    pub ghost within: { (day +ℤ pos last) ≤ℤ pos (2 * last_start) },
}

impl Span {
    /// Those for a part that stands so many days later.
    pub fn after(self, days: u32) -> Span
        requires { days ≤ self.last }
        ensures day { result.day ≡ self.day +ℤ pos days }
        ensures last { result.last ≡ self.last - days }
    {
        Span {
            day: days_later(self.day, days),
            last: self.last - days,
        }
    }

    /// The day behind them.
    pub fn new_day(self) -> i64
        ensures { result ≡ self.day +ℤ pos (self.last + 1) }
    {
        days_later(self.day, self.last + 1)
    }

    /// On how many of them a test of so many days is tried.
    pub fn tried(self, days: u32) -> u32
        ensures { result ≡ min days self.last + 1 }
    {
        days.min(self.last) + 1
    }
}

/// The days that are gone by for a whole contract: so many, from the one on which it stands. The
/// day behind them is one on which a contract may stand.
#[derive(Clone, Copy)]
pub struct DaysGone {
    pub from: i64,
    pub days: u32,
    pub ghost first: { pos 0 ≤ℤ from },
    pub ghost within: { (from +ℤ pos days) ≤ℤ pos last_start },
}

impl DaysGone {
    /// The day behind them.
    pub fn new_day(self) -> i64
        ensures { result ≡ self.from +ℤ pos self.days }
    {
        days_later(self.from, self.days)
    }

    /// The last of them, or the day before where there are none.
    pub fn last_day(self) -> i64
        ensures { result ≡ (self.from +ℤ pos self.days) -ℤ pos 1 }
    {
        days_earlier(self.new_day(), 1)
    }

    /// The same for the parts of the contract, where there are some.
    pub fn span(self) -> Span
        requires { 1 ≤ self.days }
        ensures day { result.day ≡ self.from }
        ensures last { result.last + 1 ≡ self.days }
    {
        Span {
            day: self.from,
            last: self.days - 1,
        }
    }
}
