//! Whether tests hold on a day. Only the truth value is carried, and its kind is not looked up.

ghost use Rattle.std.specs.Prelude.{◌≡◌, true, slice_get, IfSome};
ghost use Rattle.term_model.specs.Terms.{expression};
ghost use Rattle.term_model.specs.Environments.{held};
ghost use Rattle.expr_eval.specs.Bindings.{bindings};
ghost use Rattle.expr_eval.specs.Runs.{of_binding, of_held};
ghost use Rattle.expr_eval.specs.Fits.{IsDay};
ghost use Rattle.expr_eval.specs.Evaluations.{FitsIn, comparison_over, logic_over};
ghost use Rattle.expr_eval.specs.Comparing.{truth_found};
ghost use Rattle.expr_eval.specs.Truths.{DayFitsWith, DaysFitAfter, DaysFitOf, is_verdict, opposite_of, truth_after, truth_from, truth_held, truth_of, truth_with};
ghost use Rattle.expr_eval.specs.Latches.{IsKept, keeps, truth_at};

use crate::bindings::Bindings;
use crate::evaluation::{evaluate, evaluate_days};
use crate::operations::{Operands, Typed, compare, is_decided};
use crate::scratch::{Binding, Held};
use crate::searches::search;
use crate::stops::{Stop, is_wanted};
use fixing_files::Fixings;
use term_model::{CmpOp, Decls, Expr, LogicOp, Missing, Value, day_read, days_earlier, days_later};

// The truth value that an entry holds.
fn truth_entered(binding: &Binding) -> Result<bool, Missing>
    ensures { result ≡ truth_found (of_held binding.now.kind binding.now.held) }
{
    match binding.held {
        Held::Known { value } => Ok(value.is_true()),
        Held::Lacking { missing } => Err(missing),
    }
}

/// The truth value of a name.
pub fn truth_bound(names: &Bindings, back: u32) -> Result<bool, Missing>
    ensures { result ≡ truth_found (of_binding (slice_get (bindings names.now) back)) }
{
    match names {
        Bindings::Lent { scratch } => match scratch.at(back as usize) {
            Some(binding) => truth_entered(&binding),
            None => Ok(false),
        },
        Bindings::Inner { binding, outer } => {
            if back == 0 {
                truth_entered(binding)
            } else {
                truth_bound(outer, back - 1)
            }
        }
    }
}

// The truth value of what is observed on a day.
fn truth_observed(label: u32, day: i64, fixings: &Fixings) -> Result<bool, Missing>
    ensures { result ≡ truth_held (held fixings.now (record { label = label; day = day }))
        label day }
{
    match fixings.get(label, day) {
        Some(value) => Ok(value.is_true()),
        None => Err(Missing { label, day }),
    }
}

// Whether two numbers compare so, the left one first.
fn holds_between(
    decls: &Decls,
    op: CmpOp,
    left: &Expr,
    right: &Expr,
    names: &Bindings,
    fixings: &Fixings,
    day: i64,
) -> Result<bool, Missing>
    requires { FitsIn decls.now (comparison_over op left.now right.now) names.now fixings.now day }
    ensures { result ≡ truth_of decls.now (comparison_over op left.now right.now) names.now
        fixings.now day }
{
    let left = evaluate(decls, left, names, fixings, day)?;
    let right = evaluate(decls, right, names, fixings, day)?;
    Ok(compare(op, Operands { left, right }).value.is_true())
}

// Whether any other test holds.
fn holds_otherwise(
    decls: &Decls,
    test: &Expr,
    names: &Bindings,
    fixings: &Fixings,
    day: i64,
) -> Result<bool, Missing>
    requires { FitsIn decls.now (expression test.now) names.now fixings.now day }
    ensures { result ≡ truth_of decls.now (expression test.now) names.now fixings.now day }
{
    let found = evaluate(decls, test, names, fixings, day)?;
    Ok(found.value.is_true())
}

/// Whether a test holds on a day, or the first place that is not fixed.
#[inline(always)]
#[cycle(truths)]
pub fn holds(
    decls: &Decls,
    test: &Expr,
    names: &Bindings,
    fixings: &Fixings,
    day: i64,
) -> Result<bool, Missing>
    requires { FitsIn decls.now (expression test.now) names.now fixings.now day }
    ensures { result ≡ truth_of decls.now (expression test.now) names.now fixings.now day }
{
    match test {
        Expr::Yes { value } => Ok(*value),
        Expr::Var { back } => truth_bound(names, *back),
        Expr::Obs { label, offset } => truth_observed(*label, day_read(day, *offset), fixings),
        Expr::Not { of } => holds_not(decls, of, names, fixings, day),
        Expr::Logic { op, left, right } => {
            holds_joined(decls, *op, left, right, names, fixings, day)
        }
        Expr::Cmp { op, left, right } => {
            holds_between(decls, *op, left, right, names, fixings, day)
        }
        Expr::Acc { body, days, first } => {
            let from = days_earlier(day, *days);
            holds_after(decls, body, *days, first, names, fixings, from)
        }
        _ => holds_otherwise(decls, test, names, fixings, day),
    }
}

// Whether a test does not hold.
#[cycle(truths)]
fn holds_not(
    decls: &Decls,
    of: &Expr,
    names: &Bindings,
    fixings: &Fixings,
    day: i64,
) -> Result<bool, Missing>
    requires { FitsIn decls.now (opposite_of of.now) names.now fixings.now day }
    ensures { result ≡ truth_of decls.now (opposite_of of.now) names.now fixings.now day }
{
    let of = holds(decls, of, names, fixings, day)?;
    Ok(!of)
}

// Whether two tests hold together; the right one is tried only where the left does not decide.
#[cycle(truths)]
fn holds_joined(
    decls: &Decls,
    op: LogicOp,
    left: &Expr,
    right: &Expr,
    names: &Bindings,
    fixings: &Fixings,
    day: i64,
) -> Result<bool, Missing>
    requires { FitsIn decls.now (logic_over op left.now right.now) names.now fixings.now day }
    ensures { result ≡ truth_of decls.now (logic_over op left.now right.now) names.now
        fixings.now day }
{
    let left = holds(decls, left, names, fixings, day)?;
    if is_decided(op, left) {
        return Ok(left);
    }
    holds(decls, right, names, fixings, day)
}

// Whether an expression has truth values alone, by its form.
fn is_verdict(e: &Expr) -> bool
    ensures { result ≡ is_verdict (expression e.now) }
{
    matches!(
        e,
        Expr::Yes { .. } | Expr::Cmp { .. } | Expr::Not { .. } | Expr::Logic { .. }
    )
}

// The truth value that an accumulator with this body keeps once its name has it: its name decides
// before anything is read.
fn value_kept(body: &Expr) -> Option<bool>
    ensures { IfSome result (λ kept. IsKept kept (expression body.now)) }
{
    match body {
        Expr::Logic { op, .. } => {
            let kept = is_decided(*op, true);
            if keeps(kept, body) { Some(kept) } else { None }
        }
        _ => None,
    }
}

// Whether the innermost name decides first, where it has a truth value.
fn keeps(kept: bool, e: &Expr) -> bool
    ensures { result ≡ keeps kept (expression e.now) }
{
    match e {
        Expr::Var { back } => *back == 0,
        Expr::Logic { op, left, .. } => is_decided(*op, kept) && keeps(kept, left),
        _ => false,
    }
}

// The truth value of an accumulator that keeps one, by where its body stops that does not have it.
fn truth_at(stop: Stop, kept: bool) -> Result<bool, Missing>
    ensures { result ≡ truth_at kept stop }
{
    match stop {
        Stop::Never => Ok(!kept),
        Stop::Met { .. } => Ok(kept),
        Stop::Lacking { missing, .. } => Err(missing),
    }
}

// The truth value of an accumulator after its days, where it keeps one and its body can be searched
// for it.
fn kept_after(
    decls: &Decls,
    body: &Expr,
    days: u32,
    start: Typed,
    names: &Bindings,
    fixings: &Fixings,
    from: i64,
) -> Option<Result<bool, Missing>>
    requires { IsDay from }
    ensures { IfSome result (λ r. r ≡ truth_from decls.now body.now start names.now
        fixings.now from days) }
{
    let kept = value_kept(body)?;
    let Value::Truth { value } = start.value else {
        return None;
    };
    if is_wanted(kept, value) {
        return Some(Ok(kept));
    }
    let inner = Bindings::Inner {
        binding: Binding {
            kind: start.kind,
            held: Held::Known { value: start.value },
        },
        outer: &*names,
    };
    let stop = search(
        decls,
        body,
        kept,
        &inner,
        fixings,
        days_later(from, 1),
        days,
    )?;
    Some(truth_at(stop, kept))
}

// The truth value of an accumulator after its days, from its start, which stands on the day before
// the first of them.
#[cycle(truths)]
fn holds_after(
    decls: &Decls,
    body: &Expr,
    days: u32,
    first: &Expr,
    names: &Bindings,
    fixings: &Fixings,
    from: i64,
) -> Result<bool, Missing>
    requires start { FitsIn decls.now (expression first.now) names.now fixings.now from }
    requires days { DaysFitAfter decls.now body.now first.now names.now fixings.now from days }
    requires day { IsDay from }
    ensures { result ≡ truth_after decls.now body.now first.now names.now fixings.now from days }
{
    if !is_verdict(body) {
        let after = evaluate_days(decls, body, days, first, names, fixings, from)?;
        return Ok(after.value.is_true());
    }
    let start = evaluate(decls, first, names, fixings, from)?;
    if let Some(found) = kept_after(decls, body, days, start, names, fixings, from) {
        return found;
    }
    verdict_after(decls, body, days, start, names, fixings, from)
}

// The same from the value of its start, where the body has truth values alone.
#[cycle(truths)]
fn verdict_after(
    decls: &Decls,
    body: &Expr,
    days: u32,
    start: Typed,
    names: &Bindings,
    fixings: &Fixings,
    from: i64,
) -> Result<bool, Missing>
    requires body { is_verdict (expression body.now) ≡ true }
    requires days { DaysFitOf decls.now body.now start names.now fixings.now from days }
    requires day { IsDay from }
    ensures { result ≡ truth_from decls.now body.now start names.now fixings.now from days }
{
    let mut value = start;
    for i in 0..days {
        let day = days_later(from, i + 1);
        let holds = holds_then(decls, body, value, names, fixings, day)?;
        value.value = Value::Truth { value: holds };
    }
    Ok(value.value.is_true())
}

// Whether the body of an accumulator holds on a day, with a value for its name.
#[cycle(truths)]
fn holds_then(
    decls: &Decls,
    body: &Expr,
    value: Typed,
    names: &Bindings,
    fixings: &Fixings,
    day: i64,
) -> Result<bool, Missing>
    requires { DayFitsWith decls.now body.now value names.now fixings.now day }
    ensures { result ≡ truth_with decls.now body.now value names.now fixings.now day }
{
    let inner = Bindings::Inner {
        binding: Binding {
            kind: value.kind,
            held: Held::Known { value: value.value },
        },
        outer: &*names,
    };
    holds(decls, body, &inner, fixings, day)
}
