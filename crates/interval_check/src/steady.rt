//! Accumulators that add the same range on each of their days: each day moves the end points by as
//! much as the first one does, so no further day is tried by itself.

ghost use Rattle.std.specs.Prelude.{◌≡◌, ◌+◌, ◌<◌, ◌^◌, ◌≤◌, unsigned_abs};
ghost use Rattle.std.specs.Prelude.{◌↔◌, IfSome, IsTrue};
ghost use Rattle.term_model.specs.Terms.{expression};
ghost use Rattle.term_model.specs.Sizes.{nodes};
ghost use Rattle.interval_check.specs.Ranges.{range, IsFit};
ghost use Rattle.interval_check.specs.Steady as steady;
ghost use Rattle.interval_check.specs.Steady.{IsAfterDays};

use crate::intervals::{Interval, fits_in};
use crate::ranges::Range;
use term_model::{Expr, Kind, NumOp};

// Whether an expression uses the name that is bound `back` binders further out than the innermost.
fn uses(e: &Expr, back: u32) -> bool
    requires { back + nodes (expression e.now) < 2 ^ 32 }
    ensures { result ≡ steady.uses back (expression e.now) }
{
    match e {
        Expr::Lit { .. } | Expr::Yes { .. } | Expr::Obs { .. } => false,
        Expr::Var { back: own } => *own == back,
        Expr::Neg { of } | Expr::Not { of } => uses(of, back),
        Expr::Widen { of, .. } | Expr::Round { of, .. } => uses(of, back),
        Expr::Num { left, right, .. } => uses(left, back) || uses(right, back),
        Expr::Cmp { left, right, .. } => uses(left, back) || uses(right, back),
        Expr::Logic { left, right, .. } => uses(left, back) || uses(right, back),
        Expr::Div { top, below, .. } => uses(top, back) || uses(below, back),
        Expr::Cond { test, yes, no } => uses(test, back) || uses(yes, back) || uses(no, back),
        Expr::Acc { body, first, .. } => uses(body, back + 1) || uses(first, back),
    }
}

// Whether an expression is the innermost name.
fn is_own(e: &Expr) -> bool
    ensures { result ≡ steady.is_own (expression e.now) }
{
    match e {
        Expr::Var { back } => *back == 0,
        _ => false,
    }
}

// Whether a sum is of the innermost name and of what does not use it.
fn is_added(own: &Expr, other: &Expr) -> bool
    requires { nodes (expression other.now) < 2 ^ 32 }
    ensures { result ≡ steady.is_added (expression own.now) (expression other.now) }
{
    is_own(own) && !uses(other, 0)
}

/// Whether a body adds to the name of its accumulator, or takes from it, what does not use it.
pub fn adds_alike(body: &Expr) -> bool
    requires { nodes (expression body.now) < 2 ^ 32 }
    ensures { result ≡ steady.adds_alike (expression body.now) }
{
    match body {
        Expr::Num {
            op: NumOp::Plus,
            left,
            right,
        } => is_added(left, right) || is_added(right, left),
        Expr::Num {
            op: NumOp::Minus,
            left,
            right,
        } => is_added(left, right),
        _ => false,
    }
}

// An end point that moves on each day as far as on the first one.
fn moved(start: i128, next: i128, days: u32) -> Option<i128>
    requires start { unsigned_abs start ≤ 10 ^ 37 }
    requires next { unsigned_abs next ≤ 10 ^ 37 }
    ensures { IfSome result (λ m. m ≡ steady.moved start next days) }
{
    start.checked_add((next - start).checked_mul(days as i128)?)
}

fn is_same_kind(a: Kind, b: Kind) -> bool
    ensures { IsTrue result ↔ a ≡ b }
{
    a == b
}

/// The range after some days, by those before and after the first one; none where it does not keep
/// its kind, or where an end point is no mantissa.
pub fn after_days(start: Range, next: Range, days: u32) -> Option<Range>
    requires start { IsFit (range start) }
    requires next { IsFit (range next) }
    ensures { IfSome result (λ r. IsAfterDays (range start) (range next) days (range r)) }
{
    if !is_same_kind(next.kind, start.kind) {
        return None;
    }
    let low = moved(start.interval.low, next.interval.low, days)?;
    let high = moved(start.interval.high, next.interval.high, days)?;
    let interval = Interval { low, high };
    if fits_in(interval) {
        Some(Range {
            interval,
            kind: start.kind,
        })
    } else {
        None
    }
}
