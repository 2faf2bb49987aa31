//! Plans of payments at regular days, after the term sheets of loans, swaps and insured loans.

use decimal::Mode;

/// What is paid each time: a number of units of ten to the minus `scale`; or what a label holds
/// `lag` days before the payment, times a notional of `mant` units of ten to the minus
/// `mant_scale`, rounded to `scale` decimals.
#[derive(Clone, Copy, Debug, PartialEq, Eq)]
pub enum Size {
    Fixed {
        mant: i128,
        scale: u8,
    },
    Fixing {
        mode: Mode,
        scale: u8,
        label: u32,
        lag: u32,
        mant: i128,
        mant_scale: u8,
    },
}

/// Payments of one size from one party to another: the first after `first` days, each further one
/// `every` days after the one before it, `times` in all.
#[derive(Clone, Copy, Debug, PartialEq, Eq)]
pub struct Leg {
    pub size: Size,
    pub asset: u32,
    pub from: u32,
    pub to: u32,
    pub first: u32,
    pub every: u32,
    pub times: u32,
}

/// A leg; two legs, one against the other; or a leg that ends on the first day on which a flag is
/// true, when its receiver pays its payer a cover of `mant` units of ten to the minus `scale`.
#[derive(Clone, Copy, Debug, PartialEq, Eq)]
pub enum Plan {
    Leg {
        leg: Leg,
    },
    Swap {
        one: Leg,
        two: Leg,
    },
    Guarded {
        leg: Leg,
        flag: u32,
        mant: i128,
        scale: u8,
    },
}
