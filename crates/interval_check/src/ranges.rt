//! Ranges of expressions, and what each operator makes of those of its parts. Each answers the
//! fault 0, the node itself, where an end point or an operand is no mantissa.

ghost use Rattle.std.specs.Prelude.{◌≡◌, ◌↔◌, ◌≤◌, ◌+◌, IfErr, IfOk, IfSome, IsTrue};
ghost use Rattle.term_model.specs.declared.terms.NumOp.{NumOp};
ghost use Rattle.term_model.specs.Kinds.{scale_of_kind, scale_of_op};
ghost use Rattle.term_model.specs.Bounds.{aligned};
ghost use Rattle.interval_check.specs.Intervals.{interval, found, fitting, EndsFit};
ghost use Rattle.interval_check.specs.Ranges.{range, range_found, shared_found, IsFit};
ghost use Rattle.interval_check.specs.RangeTrials as tried;

use crate::intervals::{
    Interval, difference_of, fits_in, greater_of, hull_of, less_of, opposite_of, product_of,
    raise_ends, sum_of,
};
use decimal::{Mode, round_to};
use term_model::{Kind, NumOp};

/// Where the mantissa of an expression lies, and what the expression is. A truth value has the
/// interval of 0.
#[derive(Clone, Copy, Debug, PartialEq, Eq)]
pub struct Range {
    pub interval: Interval,
    pub kind: Kind,
}

/// The range of a truth value.
pub const TRUTH: Range = Range {
    interval: Interval { low: 0, high: 0 },
    kind: Kind::Truth,
};

/// The intervals of two numbers at one scale.
#[derive(Clone, Copy, Debug, PartialEq, Eq)]
pub struct Shared {
    pub left: Interval,
    pub right: Interval,
}

/// The ranges of two operands.
#[derive(Clone, Copy, Debug, PartialEq, Eq)]
pub struct Operands {
    pub left: Range,
    pub right: Range,
}

/// Whether two ranges are the same.
pub fn is_same(a: Range, b: Range) -> bool
    ensures { IsTrue result ↔ a ≡ b }
{
    a == b
}

/// The range of an interval whose end points are mantissas.
pub fn checked(i: Interval, kind: Kind) -> Result<Range, u32>
    requires { scale_of_kind kind ≤ 27 }
    ensures range { range_found result ≡ tried.ranged (fitting (interval i)) kind }
    ensures here { IfErr result (λ node. node ≡ 0) }
    ensures fit { IfOk result (λ r. IsFit (range r)) }
{
    if fits_in(i) {
        Ok(Range { interval: i, kind })
    } else {
        Err(0)
    }
}

/// The range of the negative.
pub fn negated(of: Range) -> Result<Range, u32>
    requires { IsFit (range of) }
    ensures range { range_found result ≡ tried.negated (range of) }
    ensures here { IfErr result (λ node. node ≡ 0) }
    ensures fit { IfOk result (λ r. IsFit (range r)) }
{
    let scale = of.kind.scale();
    checked(opposite_of(of.interval), Kind::Number { scale })
}

/// The range at the scale of a kind, which is not less than its own.
pub fn widened(kind: Kind, of: Range) -> Result<Range, u32>
    requires fit { IsFit (range of) }
    requires scale { scale_of_kind kind ≤ 27 }
    ensures range { range_found result ≡ tried.widened kind (range of) }
    ensures here { IfErr result (λ node. node ≡ 0) }
    ensures fit { IfOk result (λ r. IsFit (range r)) }
    ensures kind { IfOk result (λ r. r.kind ≡ kind) }
{
    if kind.scale() == of.kind.scale() {
        return Ok(Range {
            interval: of.interval,
            kind,
        });
    }
    let by = kind.scale().saturating_sub(of.kind.scale());
    match raise_ends(of.interval, by) {
        Some(interval) => Ok(Range { interval, kind }),
        None => Err(0),
    }
}

/// The range of the number that a mode rounds to a scale.
pub fn rounded(mode: Mode, scale: u8, of: Range) -> Result<Range, u32>
    requires fit { IsFit (range of) }
    requires scale { scale ≤ 27 }
    ensures range { range_found result ≡ tried.rounded mode scale (range of) }
    ensures here { IfErr result (λ node. node ≡ 0) }
    ensures fit { IfOk result (λ r. IsFit (range r)) }
{
    let from = of.kind.scale();
    let kind = Kind::Number { scale };
    if from <= scale {
        return widened(kind, of);
    }
    let low = round_to(mode, of.interval.low, from, scale);
    let high = round_to(mode, of.interval.high, from, scale);
    checked(Interval { low, high }, kind)
}

// The interval of a number at the scale that it shares with another, where its end points are
// mantissas.
fn shared_with(other: Range, of: Range) -> Option<Interval>
    ensures interval { found result ≡ fitting (aligned
        (tried.scale_in (range of)) (tried.scale_in (range other)) (interval of.interval)) }
    ensures small { IfSome result (λ i. EndsFit (interval i)) }
{
    let scale = of.kind.scale();
    raise_ends(of.interval, scale.max(other.kind.scale()) - scale)
}

// The intervals of two numbers that are raised to the greater of their scales.
fn raise_both(left: Range, right: Range) -> Result<Shared, u32>
    ensures shared { shared_found result ≡ tried.aligned_both (range left) (range right) }
    ensures here { IfErr result (λ node. node ≡ 0) }
    ensures left { IfOk result (λ p. EndsFit (interval p.left)) }
    ensures right { IfOk result (λ p. EndsFit (interval p.right)) }
{
    match (shared_with(right, left), shared_with(left, right)) {
        (Some(left), Some(right)) => Ok(Shared { left, right }),
        _ => Err(0),
    }
}

// The intervals of two numbers at the greater of their scales. Most have one scale, and then stay
// as they are.
#[inline(always)]
fn align_both(left: Range, right: Range) -> Result<Shared, u32>
    requires left { IsFit (range left) }
    requires right { IsFit (range right) }
    ensures shared { shared_found result ≡ tried.aligned_both (range left) (range right) }
    ensures here { IfErr result (λ node. node ≡ 0) }
    ensures left { IfOk result (λ p. EndsFit (interval p.left)) }
    ensures right { IfOk result (λ p. EndsFit (interval p.right)) }
{
    if left.kind.scale() == right.kind.scale() {
        Ok(Shared {
            left: left.interval,
            right: right.interval,
        })
    } else {
        raise_both(left, right)
    }
}

// The range of a product.
fn multiplied(left: Range, right: Range) -> Result<Range, u32>
    requires { tried.scale_in (range left) + tried.scale_in (range right) ≤ 27 }
    ensures range { range_found result ≡ tried.combined NumOp.Times (range left) (range right) }
    ensures here { IfErr result (λ node. node ≡ 0) }
    ensures fit { IfOk result (λ r. IsFit (range r)) }
{
    let scale = left.kind.scale() + right.kind.scale();
    match product_of(left.interval, right.interval) {
        Some(interval) => Ok(Range {
            interval,
            kind: Kind::Number { scale },
        }),
        None => Err(0),
    }
}

/// The range of an operator on two numbers.
pub fn combined(op: NumOp, left: Range, right: Range) -> Result<Range, u32>
    requires left { IsFit (range left) }
    requires right { IsFit (range right) }
    requires scale { scale_of_op op (tried.scale_in (range left))
        (tried.scale_in (range right)) ≤ 27 }
    ensures range { range_found result ≡ tried.combined op (range left) (range right) }
    ensures here { IfErr result (λ node. node ≡ 0) }
    ensures fit { IfOk result (λ r. IsFit (range r)) }
{
    let kind = Kind::Number {
        scale: left.kind.scale().max(right.kind.scale()),
    };
    match op {
        NumOp::Times => multiplied(left, right),
        NumOp::Plus => {
            let both = align_both(left, right)?;
            checked(sum_of(both.left, both.right), kind)
        }
        NumOp::Minus => {
            let both = align_both(left, right)?;
            checked(difference_of(both.left, both.right), kind)
        }
        NumOp::Min => {
            let both = align_both(left, right)?;
            Ok(Range {
                interval: less_of(both.left, both.right),
                kind,
            })
        }
        NumOp::Max => {
            let both = align_both(left, right)?;
            Ok(Range {
                interval: greater_of(both.left, both.right),
                kind,
            })
        }
    }
}

/// The range of a comparison, whose operands have to be mantissas at their shared scale.
pub fn compared(left: Range, right: Range) -> Result<Range, u32>
    requires left { IsFit (range left) }
    requires right { IsFit (range right) }
    ensures range { range_found result ≡ tried.compared (range left) (range right) }
    ensures here { IfErr result (λ node. node ≡ 0) }
    ensures fit { IfOk result (λ r. IsFit (range r)) }
{
    align_both(left, right)?;
    Ok(TRUTH)
}

/// The range of what is either of two branches.
pub fn either(yes: Range, no: Range) -> Result<Range, u32>
    requires yes { IsFit (range yes) }
    requires no { IsFit (range no) }
    ensures range { range_found result ≡ tried.either (range yes) (range no) }
    ensures here { IfErr result (λ node. node ≡ 0) }
    ensures fit { IfOk result (λ r. IsFit (range r)) }
{
    let both = align_both(yes, no)?;
    checked(hull_of(both.left, both.right), yes.kind.either(no.kind))
}
