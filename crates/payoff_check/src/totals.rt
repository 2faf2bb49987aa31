//! Totals of payoff code. Each operation answers a fault at the node itself where a total is more
//! than 10^37, as it is or at nine more decimals than the portfolio's.

ghost use Rattle.std.specs.Prelude.{◌≡◌, ◌≤◌, ◌<◌, ◌+◌, ◌-◌, ◌^◌, nat_le, IfOk};
ghost use Rattle.term_model.specs.Limits.{greatest_mantissa};
ghost use Rattle.interval_check.specs.Intervals.{interval};
ghost use Rattle.interval_check.specs.Ranges.{IsFit, range};
ghost use Rattle.payoff_check.specs.Trials.{Tells};
ghost use Rattle.payoff_check.specs.BoundTrials.{IsFitting, at_decimals, of_branches, of_product};
ghost use Rattle.payoff_check.specs.BoundTrials.{of_sum, ranged, total_here};

use crate::bound_rule::Ranged;
use crate::decimals::Decimals;
use crate::faults::Fault;
use decimal::{GREATEST_MANTISSA, pow10};
use interval_check::greatest_size_in;

/// The most that code can be worth in size, whatever is observed, in units of its scale; and its
/// nodes.
#[derive(Clone, Copy)]
pub struct CodeTotal {
    pub amount: u128,
    pub scale: u8,
    pub nodes: u32,
}

// The power of ten by which a total is multiplied at a count of decimals.
fn power(decimals: Decimals, of: CodeTotal) -> u128
    ensures { result ≡ 10 ^ (decimals.count - of.scale) }
{
    pow10(decimals.count.saturating_sub(of.scale)).unsigned_abs()
}

// A total at a count of decimals that is not less than its scale.
fn amount_at(decimals: Decimals, of: CodeTotal) -> u128
    requires { at_decimals decimals.count of ≤ greatest_mantissa }
    ensures { result ≡ at_decimals decimals.count of }
{
    if decimals.count == of.scale {
        of.amount
    } else {
        of.amount * power(decimals, of)
    }
}

// The greatest total at a scale that is at most 10^37 at a count of decimals.
fn greatest_at(decimals: Decimals, scale: u8) -> u128
    ensures { result ≡ 10 ^ (37 - (decimals.count - scale)) }
{
    pow10(37 - decimals.count.saturating_sub(scale)).unsigned_abs()
}

// Whether a total is at most 10^37 at a count of decimals.
fn is_small_at(decimals: Decimals, of: CodeTotal) -> bool
    ensures { result ≡ nat_le (at_decimals decimals.count of) greatest_mantissa }
{
    of.amount <= greatest_at(decimals, of.scale)
}

/// A total that fits, else a fault at its node.
pub fn checked(decimals: Decimals, of: CodeTotal, node: u32) -> Result<CodeTotal, Fault>
    ensures total { Tells result (total_here decimals.count of node) }
    ensures nodes { IfOk result (λ t. t.nodes ≡ of.nodes) }
    ensures fits { IfOk result (λ t. IsFitting decimals.count t) }
{
    if of.scale <= decimals.count {
        if of.amount <= GREATEST_MANTISSA && is_small_at(decimals, of) {
            Ok(of)
        } else {
            Err(Fault::At { node })
        }
    } else {
        Err(Fault::At { node })
    }
}

/// The total of two parts together.
pub fn sum_of(
    decimals: Decimals,
    left: CodeTotal,
    right: CodeTotal,
    node: u32,
) -> Result<CodeTotal, Fault>
    requires left { IsFitting decimals.count left }
    requires right { IsFitting decimals.count right }
    requires nodes { left.nodes + right.nodes + 1 < 2 ^ 32 }
    ensures total { Tells result (total_here decimals.count (of_sum left right) node) }
    ensures nodes { IfOk result (λ t. t.nodes ≡ left.nodes + right.nodes + 1) }
    ensures fits { IfOk result (λ t. IsFitting decimals.count t) }
{
    let scale = left.scale.max(right.scale);
    let shared = Decimals { count: scale };
    let of = CodeTotal {
        amount: amount_at(shared, left) + amount_at(shared, right),
        scale,
        nodes: left.nodes + right.nodes + 1,
    };
    checked(decimals, of, node)
}

/// The total of two parts of which one is entered, behind a test of so many nodes.
pub fn greater_of(
    decimals: Decimals,
    count: u32,
    hit: CodeTotal,
    miss: CodeTotal,
    node: u32,
) -> Result<CodeTotal, Fault>
    requires hit { IsFitting decimals.count hit }
    requires miss { IsFitting decimals.count miss }
    requires nodes { count + hit.nodes + miss.nodes + 1 < 2 ^ 32 }
    ensures total { Tells result (total_here decimals.count (of_branches count hit miss) node) }
    ensures nodes { IfOk result (λ t. t.nodes ≡ count + hit.nodes + miss.nodes + 1) }
    ensures fits { IfOk result (λ t. IsFitting decimals.count t) }
{
    let scale = hit.scale.max(miss.scale);
    let shared = Decimals { count: scale };
    let of = CodeTotal {
        amount: amount_at(shared, hit).max(amount_at(shared, miss)),
        scale,
        nodes: count + hit.nodes + miss.nodes + 1,
    };
    checked(decimals, of, node)
}

/// The total of a part that is multiplied by a number.
pub fn product_of(
    decimals: Decimals,
    factor: Ranged,
    body: CodeTotal,
    node: u32,
) -> Result<CodeTotal, Fault>
    requires factor { IsFit (range factor.range) }
    requires body { IsFitting decimals.count body }
    requires nodes { factor.nodes + body.nodes + 1 < 2 ^ 32 }
    ensures total { Tells result
        (total_here decimals.count (of_product (ranged factor) body) node) }
    ensures nodes { IfOk result (λ t. t.nodes ≡ factor.nodes + body.nodes + 1) }
    ensures fits { IfOk result (λ t. IsFitting decimals.count t) }
{
    let scale = factor.range.kind.scale() + body.scale;
    let nodes = factor.nodes + body.nodes + 1;
    match body
        .amount
        .checked_mul(greatest_size_in(factor.range.interval))
    {
        Some(amount) => checked(
            decimals,
            CodeTotal {
                amount,
                scale,
                nodes,
            },
            node,
        ),
        None => Err(Fault::At { node }),
    }
}
