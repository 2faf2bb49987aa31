//! The range of a quotient.

ghost use Rattle.std.specs.Prelude.{◌≡◌, ◌≤◌, ◌+◌, IfErr, IfOk};
ghost use Rattle.decimal.specs.Rounding.{divided, DivFits};
ghost use Rattle.term_model.specs.Bounds.{single, hull, has_zero, fit_divided};
ghost use Rattle.interval_check.specs.Intervals.{interval};
ghost use Rattle.interval_check.specs.Ranges.{range, range_found, IsFit};
ghost use Rattle.interval_check.specs.RangeTrials as tried;

use crate::intervals::{Interval, hull_of, raise_ends};
use crate::ranges::{Range, checked};
use decimal::{Mode, div_to};
use term_model::Kind;

// How a quotient is rounded: the scales of its numerator and its denominator, the mode, and its own
// scale.
#[derive(Clone, Copy)]
struct Division {
    top: u8,
    below: u8,
    mode: Mode,
    scale: u8,
}

// Whether 0 is among the mantissas.
fn holds_zero(i: Interval) -> bool
    ensures { result ≡ has_zero (interval i) }
{
    i.low <= 0 && 0 <= i.high
}

// Whether each numerator can be divided by each denominator: none of these is 0, and what is
// multiplied by a power of ten for it stays a mantissa.
fn can_divide(by: Division, top: Interval, below: Interval) -> bool
    requires top { by.top ≤ 27 }
    requires below { by.below ≤ 27 }
    requires scale { by.scale ≤ 27 }
    ensures { result ≡ fit_divided by.top (interval top) by.below (interval below) by.scale }
{
    let wanted = by.scale + by.below;
    !holds_zero(below)
        && wanted <= by.top + 37
        && by.top <= wanted + 37
        && raise_ends(top, wanted.saturating_sub(by.top)).is_some()
        && raise_ends(below, by.top.saturating_sub(wanted)).is_some()
}

// A quotient; by 0 it is 0.
fn quotient_of(by: Division, a: i128, b: i128) -> i128
    requires top { by.top ≤ 27 }
    requires below { by.below ≤ 27 }
    requires scale { by.scale ≤ 27 }
    requires fits { DivFits a by.top b by.below by.scale }
    ensures { result ≡ divided by.mode a by.top b by.below by.scale }
{
    if b == 0 {
        0
    } else {
        div_to(by.mode, a, by.top, b, by.below, by.scale)
    }
}

// The quotients of a number by the end points of an interval, as an interval.
fn quotients(by: Division, a: i128, below: Interval) -> Interval
    requires top { by.top ≤ 27 }
    requires below { by.below ≤ 27 }
    requires scale { by.scale ≤ 27 }
    requires low { DivFits a by.top below.low by.below by.scale }
    requires high { DivFits a by.top below.high by.below by.scale }
    ensures { interval result ≡ hull
        (single (divided by.mode a by.top below.low by.below by.scale))
        (single (divided by.mode a by.top below.high by.below by.scale)) }
{
    let by_low = quotient_of(by, a, below.low);
    let by_high = quotient_of(by, a, below.high);
    Interval {
        low: by_low.min(by_high),
        high: by_low.max(by_high),
    }
}

/// The range of a quotient at a scale.
pub fn divided(mode: Mode, scale: u8, top: Range, below: Range) -> Result<Range, u32>
    requires top { IsFit (range top) }
    requires below { IsFit (range below) }
    requires scale { scale ≤ 27 }
    ensures range { range_found result ≡ tried.quotient mode scale (range top) (range below) }
    ensures here { IfErr result (λ node. node ≡ 0) }
    ensures fit { IfOk result (λ r. IsFit (range r)) }
{
    let by = Division {
        top: top.kind.scale(),
        below: below.kind.scale(),
        mode,
        scale,
    };
    if !can_divide(by, top.interval, below.interval) {
        return Err(0);
    }
    let of_low = quotients(by, top.interval.low, below.interval);
    let of_high = quotients(by, top.interval.high, below.interval);
    checked(hull_of(of_low, of_high), Kind::Number { scale })
}
