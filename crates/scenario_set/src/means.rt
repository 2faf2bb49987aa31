//! The mean of values.

ghost use Rattle.std.specs.Prelude.{◌≡◌, ◌≤◌};
ghost use Rattle.interval_check.specs.Safety.{IsSmall};
ghost use Rattle.scenario_set.specs.Totals.{mean_of};

use decimal::{Mode, div_to};

/// The total of so many values over their count, as the mode rounds it, at the decimals of the
/// total. It takes no memory.
pub fn mean(total: i128, count: u32, mode: Mode) -> i128
    requires count { 1 ≤ count }
    requires total { IsSmall total }
    ensures { result ≡ mean_of mode total count }
{
    div_to(mode, total, 0, count as i128, 0, 0)
}
