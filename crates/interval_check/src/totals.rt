//! Totals of contracts. Each operation answers the fault 0, the node itself, where a total is more
//! than 10^27, as it is or at the portfolio's decimals.

ghost use Rattle.std.specs.Prelude.{◌≡◌, ◌≤◌, ◌+◌, ◌-◌, ◌^◌, nat_le, IfErr, IfOk};
ghost use Rattle.interval_check.specs.Intervals.{interval};
ghost use Rattle.interval_check.specs.Ranges.{range};
ghost use Rattle.interval_check.specs.Totals.{total, total_found, IsTotal};
ghost use Rattle.interval_check.specs.RangeTrials.{scale_in};
ghost use Rattle.interval_check.specs.TotalTrials as tried;
ghost use Rattle.term_model.specs.Bounds.{greatest_total};

use crate::intervals::greatest_size_in;
use crate::ranges::Range;
use decimal::pow10;

// The greatest total, 10^27.
const GREATEST: u128 = 1_000_000_000_000_000_000_000_000_000;

/// The most that a contract can pay over all days, for a pair of parties and an asset, in units of
/// its scale.
#[derive(Clone, Copy, Debug, PartialEq, Eq)]
pub struct Total {
    pub amount: u128,
    pub scale: u8,
}

/// A total at a count of decimals that is not less than its scale.
pub fn amount_at(decimals: u8, of: Total) -> u128
    requires decimals { decimals ≤ 12 }
    requires small { tried.at_decimals decimals (total of) ≤ 10 ^ 27 }
    ensures { result ≡ tried.at_decimals decimals (total of) }
{
    of.amount * power(decimals, of)
}

// The power of ten by which a total is multiplied at a count of decimals.
fn power(decimals: u8, of: Total) -> u128
    requires { decimals ≤ 12 }
    ensures { result ≡ 10 ^ (decimals - of.scale) }
{
    pow10(decimals.saturating_sub(of.scale)).unsigned_abs()
}

// Whether a total is at most 10^27 at a count of decimals.
fn is_small_at(decimals: u8, of: Total) -> bool
    requires { decimals ≤ 12 }
    ensures { result ≡ nat_le (tried.at_decimals decimals (total of)) greatest_total }
{
    match of.amount.checked_mul(power(decimals, of)) {
        Some(amount) => amount <= GREATEST,
        None => false,
    }
}

/// A total that fits.
pub fn checked_total(decimals: u8, amount: u128, scale: u8) -> Result<Total, u32>
    requires decimals { decimals ≤ 12 }
    requires scale { scale ≤ decimals }
    ensures total { total_found result
        ≡ tried.total_here decimals (record { amount = amount; scale = scale }) }
    ensures here { IfErr result (λ node. node ≡ 0) }
    ensures fits { IfOk result (λ t. IsTotal decimals t) }
{
    let of = Total { amount, scale };
    if amount <= GREATEST && is_small_at(decimals, of) {
        Ok(of)
    } else {
        Err(0)
    }
}

/// The total of two contracts together.
pub fn total_of_both(decimals: u8, left: Total, right: Total) -> Result<Total, u32>
    requires decimals { decimals ≤ 12 }
    requires left { IsTotal decimals left }
    requires right { IsTotal decimals right }
    ensures total { total_found result
        ≡ tried.total_here decimals (tried.of_both (total left) (total right)) }
    ensures here { IfErr result (λ node. node ≡ 0) }
    ensures fits { IfOk result (λ t. IsTotal decimals t) }
{
    let scale = left.scale.max(right.scale);
    checked_total(
        decimals,
        amount_at(scale, left) + amount_at(scale, right),
        scale,
    )
}

/// The total of two contracts of which one is entered.
pub fn total_of_either(decimals: u8, hit: Total, miss: Total) -> Result<Total, u32>
    requires decimals { decimals ≤ 12 }
    requires hit { IsTotal decimals hit }
    requires miss { IsTotal decimals miss }
    ensures total { total_found result
        ≡ tried.total_here decimals (tried.of_either (total hit) (total miss)) }
    ensures here { IfErr result (λ node. node ≡ 0) }
    ensures fits { IfOk result (λ t. IsTotal decimals t) }
{
    let scale = hit.scale.max(miss.scale);
    checked_total(
        decimals,
        amount_at(scale, hit).max(amount_at(scale, miss)),
        scale,
    )
}

/// The total of a contract that is multiplied by a number.
pub fn total_of_scaled(decimals: u8, factor: Range, body: Total) -> Result<Total, u32>
    requires decimals { decimals ≤ 12 }
    requires scale { scale_in (range factor) + body.scale ≤ decimals }
    ensures total { total_found result
        ≡ tried.total_here decimals (tried.of_scaled (range factor) (total body)) }
    ensures here { IfErr result (λ node. node ≡ 0) }
    ensures fits { IfOk result (λ t. IsTotal decimals t) }
{
    let scale = factor.kind.scale() + body.scale;
    match body.amount.checked_mul(greatest_size_in(factor.interval)) {
        Some(amount) => checked_total(decimals, amount, scale),
        None => Err(0),
    }
}
