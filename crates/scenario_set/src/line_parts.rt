//! What stands in the lines of a total.

ghost use Rattle.std.specs.Prelude.{◌≤◌};
ghost use Rattle.interval_check.specs.Safety.{IsSmall};

/// So many decimals, no more than a number can be written with.
#[derive(Clone, Copy)]
pub struct Decimals {
    pub count: u8,
    pub ghost few: { count ≤ 27 },
}

/// A value within the limit of mantissas, and the name of the scenario in which it is one.
#[derive(Clone, Copy)]
pub struct NamedValue<'a> {
    pub name: &'a [u8],
    pub value: i128,
    pub ghost small: { IsSmall value },
}
