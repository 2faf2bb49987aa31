//! Accumulators that stay level and add, on each day, what one observable and literals make: their
//! days go through the label's run, and none is looked up.

ghost use Rattle.std.specs.Prelude.{◌≡◌, Contains, IfSome, true};
ghost use Rattle.term_model.specs.Terms.{expression};
ghost use Rattle.term_model.specs.Values.{num_op};
ghost use Rattle.expr_eval.specs.Evaluations.{combination_over};
ghost use Rattle.expr_eval.specs.Fits.{IsDay};
ghost use Rattle.expr_eval.specs.Sums as sums;
ghost use Rattle.expr_eval.specs.Sums.{IsAfter, IsSum, adding};

use crate::operations::Typed;
use crate::watches::{in_word, index_of};
use fixing_files::{FixedDay, Fixings};
use term_model::{Expr, NumOp, Value, day_read, days_later};

/// What is observed under a label, some days later.
#[derive(Clone, Copy)]
pub struct Observed {
    pub label: u32,
    pub offset: i32,
}

// What the body of an accumulator adds to the innermost name, where it does that alone.
fn part_added(body: &Expr) -> Option<&Expr>
    ensures { IfSome result (λ part. expression body.now ≡ adding (expression part.now)) }
{
    let Expr::Num {
        op: NumOp::Plus,
        left,
        right,
    } = body
    else {
        return None;
    };
    match &**left {
        Expr::Var { back: 0 } => Some(&**right),
        _ => None,
    }
}

// The first observable among literals and operators.
fn observed_in(e: &Expr) -> Option<Observed> {
    match e {
        Expr::Obs { label, offset } => Some(Observed {
            label: *label,
            offset: *offset,
        }),
        Expr::Num { left, right, .. } => match observed_in(left) {
            Some(found) => Some(found),
            None => observed_in(right),
        },
        _ => None,
    }
}

// Whether an expression is made of one observable and of literals.
fn is_over(e: &Expr, observed: Observed) -> bool
    ensures { result ≡ sums.is_over observed (expression e.now) }
{
    match e {
        Expr::Lit { .. } => true,
        Expr::Obs { label, offset } => *label == observed.label && *offset == observed.offset,
        Expr::Num { left, right, .. } => is_over(left, observed) && is_over(right, observed),
        _ => false,
    }
}

// An operator on two numbers of one scale, where 64 bits hold what it makes.
#[inline(always)]
fn combined(op: NumOp, x: i64, y: i64) -> Option<i64>
    ensures { IfSome result (λ z. z ≡ num_op op x y) }
{
    match op {
        NumOp::Plus => x.checked_add(y),
        NumOp::Minus => x.checked_sub(y),
        NumOp::Times => x.checked_mul(y),
        NumOp::Min => Some(x.min(y)),
        NumOp::Max => Some(x.max(y)),
    }
}

// The number of an expression whose parts have one scale, by that of what is observed; none where a
// word is too small.
#[inline(always)]
#[cycle(making)]
fn made(e: &Expr, x: i64) -> Option<i64>
    ensures { IfSome result (λ y. y ≡ sums.made (expression e.now) x) }
{
    match e {
        Expr::Lit { mant, .. } => in_word(*mant),
        Expr::Num { op, left, right } => made_of(*op, left, right, x),
        _ => Some(x),
    }
}

// The same of an operator on two parts.
#[cycle(making)]
fn made_of(op: NumOp, left: &Expr, right: &Expr, x: i64) -> Option<i64>
    ensures { IfSome result (λ y. y ≡ sums.made (combination_over op left.now right.now) x) }
{
    combined(op, made(left, x)?, made(right, x)?)
}

// The value of a day, if the day stands at an index of a run.
#[inline(always)]
fn fixed_at(run: &[FixedDay], at: usize, day: i64) -> Option<Value>
    ensures { IfSome result (λ v. Contains run.now (record { day = day; value = v })) }
{
    if at < run.len() {
        let fixed = &run[at];
        if fixed.day == day {
            return Some(fixed.value);
        }
    }
    None
}

// The sum over some days of what the fixing of each makes, from a start; none where the label's run
// lacks one of them, or where a number is too large for a word.
#[inline(never)]
fn added(
    part: &Expr,
    observed: Observed,
    start: Typed,
    fixings: &Fixings,
    from: i64,
    days: u32,
) -> Option<i128>
    requires over { sums.is_over observed (expression part.now) ≡ true }
    requires day { IsDay from }
    ensures { IfSome result (λ sum. IsSum (expression part.now) start fixings.now from days sum) }
{
    let run = fixings.days_of(observed.label);
    let first = day_read(days_later(from, 1), observed.offset);
    let at = index_of(run, first);
    let mut sum = start.value.number();
    for i in 0..days {
        let value = fixed_at(run, at + i as usize, days_later(first, i))?;
        let more = made(part, in_word(value.number())?)?;
        sum = sum.checked_add(more as i128)?;
    }
    Some(sum)
}

/// What an accumulator that stays level comes to after its days, from its value before them, where
/// it adds what one observable and literals make, and each day is fixed.
pub fn sum_over(body: &Expr, start: Typed, fixings: &Fixings, from: i64, days: u32) -> Option<Typed>
    requires { IsDay from }
    ensures { IfSome result (λ v. IsAfter (expression body.now) start fixings.now from days v) }
{
    let part = part_added(body)?;
    let observed = observed_in(part)?;
    if !is_over(part, observed) {
        return None;
    }
    let mant = added(part, observed, start, fixings, from, days)?;
    Some(Typed {
        kind: start.kind,
        value: Value::Num { mant },
    })
}
