//! When a contract starts.

ghost use Rattle.std.specs.Prelude.{◌≡◌};
ghost use Rattle.time_types.specs.TimeTrials.{earlier, is_known_at};

/// The portfolio day, counted from the day on which a contract stands, before which it transfers
/// nothing; or `Always`, where it never transfers anything.
#[derive(Clone, Copy, Debug, PartialEq, Eq)]
pub enum Start {
    Day { day: i64 },
    Always,
}

/// The start of two contracts together.
pub fn earlier_of(a: Start, b: Start) -> Start
    ensures { result ≡ earlier a b }
{
    match (a, b) {
        (Start::Always, _) => b,
        (Start::Day { .. }, Start::Always) => a,
        (Start::Day { day: a }, Start::Day { day: b }) => Start::Day { day: a.min(b) },
    }
}

/// Whether what is known from a day on is known at a start.
pub fn is_known(known: Option<i64>, at: Start) -> bool
    ensures { result ≡ is_known_at known at }
{
    match (known, at) {
        (Some(known), Start::Day { day }) => known <= day,
        (Some(_), Start::Always) => true,
        (None, _) => true,
    }
}
