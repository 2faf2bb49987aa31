//! Where a test stops that is tried on one day after another.

ghost use Rattle.std.specs.Prelude.{◌≡◌};
ghost use Rattle.expr_eval.specs.Stops.{IsCounted, counted_from, day_of, days_before, goes_on, is_wanted};

use term_model::Missing;

/// On which of some days, counted from 0, a test first has the truth value that is wanted, or lacks
/// a place.
#[derive(Clone, Copy)]
pub enum Stop {
    Never,
    Met { day: u32 },
    Lacking { day: u32, missing: Missing },
}

impl Stop {
    /// Whether it has not stopped.
    pub fn goes_on(self) -> bool
        ensures { result ≡ goes_on self }
    {
        matches!(self, Stop::Never)
    }

    /// How many of some days are before it.
    pub fn days_before(self, days: u32) -> u32
        ensures { result ≡ days_before self days }
    {
        match self {
            Stop::Never => days,
            Stop::Met { day } => day,
            Stop::Lacking { day, .. } => day,
        }
    }

    /// The same, counted from some days earlier.
    pub fn counted_from(self, done: u32) -> Stop
        requires { IsCounted self done }
        ensures { result ≡ counted_from self done }
    {
        match self {
            Stop::Never => Stop::Never,
            Stop::Met { day } => Stop::Met { day: done + day },
            Stop::Lacking { day, missing } => Stop::Lacking {
                day: done + day,
                missing,
            },
        }
    }

    /// The day on which the test has the truth value, or the place that it lacks.
    pub fn day(self) -> Result<Option<u32>, Missing>
        ensures { result ≡ day_of self }
    {
        match self {
            Stop::Never => Ok(None),
            Stop::Met { day } => Ok(Some(day)),
            Stop::Lacking { missing, .. } => Err(missing),
        }
    }
}

/// Whether a truth value is the one that is wanted.
pub fn is_wanted(wanted: bool, found: bool) -> bool
    ensures { result ≡ is_wanted wanted found }
{
    if wanted { found } else { !found }
}
