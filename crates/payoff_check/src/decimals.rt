//! Counts of decimals.

ghost use Rattle.std.specs.Prelude.{◌≤◌};

/// A count of decimals that totals can have: at most nine more than those of a portfolio.
#[derive(Clone, Copy)]
pub struct Decimals {
    pub count: u8,
    pub ghost few: { count ≤ 21 },
}
