//! Intervals of mantissas, and arithmetic on them that stops where a number is no mantissa.

ghost use Rattle.std.specs.Prelude.{◌≡◌, ◌≤◌, ◌^◌, unsigned_abs, ◌*ℤ◌, neg_ℤ, IfSome};
ghost use Rattle.decimal.specs.Rounding.{raised};
ghost use Rattle.term_model.specs.declared.terms.NumOp.TheVariants.{Plus, Minus, Times, Min, Max};
ghost use Rattle.term_model.specs.Bounds.{fits, greatest_size, lifted, swapped, single, hull};
ghost use Rattle.term_model.specs.Bounds.{on_intervals};
ghost use Rattle.interval_check.specs.Intervals.{interval, found, mantissa, fitting, EndsFit};

use decimal::{is_mantissa, widen};

/// The mantissas from the least to the greatest.
#[derive(Clone, Copy, Debug, PartialEq, Eq)]
pub struct Interval {
    pub low: i128,
    pub high: i128,
}

/// Whether both end points are mantissas.
pub fn fits_in(i: Interval) -> bool
    ensures { result ≡ fits (interval i) }
{
    is_mantissa(i.low) && is_mantissa(i.high)
}

/// The greatest size among the mantissas of an interval.
pub fn greatest_size_in(i: Interval) -> u128
    ensures { result ≡ greatest_size (interval i) }
{
    i.low.unsigned_abs().max(i.high.unsigned_abs())
}

// The product, where it is a mantissa.
fn product(a: i128, b: i128) -> Option<i128>
    ensures value { result ≡ mantissa (a *ℤ b) }
    ensures small { IfSome result (λ m. unsigned_abs m ≤ 10 ^ 37) }
{
    let m = a.checked_mul(b)?;
    if is_mantissa(m) { Some(m) } else { None }
}

/// The interval at `by` more decimals, where its end points are mantissas.
pub fn raise_ends(i: Interval, by: u8) -> Option<Interval>
    ensures interval { found result ≡ fitting (lifted (λ m. raised m by) (interval i)) }
    ensures small { IfSome result (λ i. EndsFit (interval i)) }
{
    let low = widen(i.low, by)?;
    let high = widen(i.high, by)?;
    Some(Interval { low, high })
}

/// The interval of the negative.
pub fn opposite_of(i: Interval) -> Interval
    requires { EndsFit (interval i) }
    ensures { interval result ≡ lifted neg_ℤ (swapped (interval i)) }
{
    Interval {
        low: -i.high,
        high: -i.low,
    }
}

/// The interval of the sum of two numbers.
pub fn sum_of(i: Interval, j: Interval) -> Interval
    requires left { EndsFit (interval i) }
    requires right { EndsFit (interval j) }
    ensures { interval result ≡ on_intervals Plus (interval i) (interval j) }
{
    Interval {
        low: i.low + j.low,
        high: i.high + j.high,
    }
}

/// The interval of the difference of two numbers.
pub fn difference_of(i: Interval, j: Interval) -> Interval
    requires left { EndsFit (interval i) }
    requires right { EndsFit (interval j) }
    ensures { interval result ≡ on_intervals Minus (interval i) (interval j) }
{
    Interval {
        low: i.low - j.high,
        high: i.high - j.low,
    }
}

/// The interval of the less of two numbers.
pub fn less_of(i: Interval, j: Interval) -> Interval
    ensures { interval result ≡ on_intervals Min (interval i) (interval j) }
{
    Interval {
        low: i.low.min(j.low),
        high: i.high.min(j.high),
    }
}

/// The interval of the greater of two numbers.
pub fn greater_of(i: Interval, j: Interval) -> Interval
    ensures { interval result ≡ on_intervals Max (interval i) (interval j) }
{
    Interval {
        low: i.low.max(j.low),
        high: i.high.max(j.high),
    }
}

/// The least interval that holds both.
pub fn hull_of(i: Interval, j: Interval) -> Interval
    ensures { interval result ≡ hull (interval i) (interval j) }
{
    Interval {
        low: i.low.min(j.low),
        high: i.high.max(j.high),
    }
}

// The products of a number and the end points of an interval, as an interval where they are
// mantissas.
fn products(m: i128, i: Interval) -> Option<Interval>
    ensures interval { found result ≡ fitting (hull (single (m *ℤ i.low)) (single (m *ℤ i.high))) }
    ensures small { IfSome result (λ i. EndsFit (interval i)) }
{
    let by_low = product(m, i.low)?;
    let by_high = product(m, i.high)?;
    Some(Interval {
        low: by_low.min(by_high),
        high: by_low.max(by_high),
    })
}

/// The interval of the products of two numbers, where its end points are mantissas.
pub fn product_of(i: Interval, j: Interval) -> Option<Interval>
    ensures interval { found result ≡ fitting (on_intervals Times (interval i) (interval j)) }
    ensures small { IfSome result (λ i. EndsFit (interval i)) }
{
    let of_low = products(i.low, j)?;
    let of_high = products(i.high, j)?;
    Some(hull_of(of_low, of_high))
}
