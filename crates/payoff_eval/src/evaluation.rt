//! The evaluator of value expressions: values with their kinds, or the first place that is not
//! fixed. It answers what the evaluator of expressions answers of the expression that a value
//! expression is at the setting.

ghost use Rattle.std.specs.Prelude.{◌≡◌};
ghost use Rattle.term_model.specs.Declarations.{declarations};
ghost use Rattle.expr_eval.specs.Fits.{IsDay};
ghost use Rattle.expr_eval.specs.Runs.{observation};
ghost use Rattle.payoff_eval.specs.CodeEvaluations.{DayFitsOn, DaysFitOn, FitsOn, HasDates};
ghost use Rattle.payoff_eval.specs.CodeEvaluations.{both_on};
ghost use Rattle.payoff_eval.specs.CodeEvaluations.{conditional_over, dated, day_run_on};
ghost use Rattle.payoff_eval.specs.CodeEvaluations.{days_run_on};
ghost use Rattle.payoff_eval.specs.CodeEvaluations.{logic_over, run_on};

use crate::asking::Asking;
use crate::dates::day_of;
use crate::kinds::kind_in;
use expr_eval::operations::{
    Operands, Typed, at_kind, combine, compare, divide, is_decided, negate, number, round, verdict,
};
use expr_eval::{Binding, Bindings, Held, value_bound, value_found};
use payoff_terms::Vx;
use term_model::{Kind, LogicOp, Missing, days_earlier, days_later};

// The value of what is observed on a day.
fn value_observed(asking: &Asking, label: u32, day: i64) -> Result<Typed, Missing>
    ensures { result
        ≡ observation (declarations asking.now.decls.now) asking.now.fixings.now label day }
{
    value_found(asking.decls, label, day, asking.fixings.get(label, day))
}

/// The value of an expression with its kind, or the first place that is not fixed.
#[cycle(evaluation)]
pub fn evaluate(asking: &Asking, e: &Vx, names: &Bindings, day: i64) -> Result<Typed, Missing>
    requires dates { HasDates asking.now e.now }
    requires fits { FitsOn asking.now (dated asking.now e.now) names.now day }
    ensures { result ≡ run_on asking.now (dated asking.now e.now) names.now day }
{
    match e {
        Vx::Lit { mant, scale } => Ok(number(*scale, *mant)),
        Vx::Yes { value } => Ok(verdict(*value)),
        Vx::Var { back } => value_bound(names, *back),
        Vx::Model { label, date } => value_observed(asking, *label, day_of(asking, day, date)),
        Vx::Neg { of } => {
            let of = evaluate(asking, of, names, day)?;
            Ok(negate(of))
        }
        Vx::Num { op, left, right } => {
            let both = evaluate_both(asking, left, right, names, day)?;
            Ok(combine(*op, both))
        }
        Vx::Cmp { op, left, right } => {
            let both = evaluate_both(asking, left, right, names, day)?;
            Ok(compare(*op, both))
        }
        Vx::Not { of } => {
            let of = evaluate(asking, of, names, day)?;
            Ok(verdict(!of.value.is_true()))
        }
        Vx::Logic { op, left, right } => { evaluate_logic(asking, *op, left, right, names, day) }
        Vx::Cond { test, yes, no } => { evaluate_branches(asking, test, yes, no, names, day) }
        Vx::Widen { scale, of } => {
            let of = evaluate(asking, of, names, day)?;
            Ok(at_kind(Kind::Number { scale: *scale }, of))
        }
        Vx::Round { mode, scale, of } => {
            let of = evaluate(asking, of, names, day)?;
            Ok(round(*mode, *scale, of))
        }
        Vx::Div {
            mode,
            scale,
            top,
            below,
        } => {
            let both = evaluate_both(asking, top, below, names, day)?;
            Ok(divide(*mode, *scale, both))
        }
        Vx::Acc { body, days, first } => {
            let from = days_earlier(day, *days);
            let start = evaluate(asking, first, names, from);
            evaluate_days(asking, body, *days, start, names, from)
        }
    }
}

// Both operands, the left one first.
#[cycle(evaluation)]
fn evaluate_both(
    asking: &Asking,
    left: &Vx,
    right: &Vx,
    names: &Bindings,
    day: i64,
) -> Result<Operands, Missing>
    requires dates { HasDates asking.now left.now × HasDates asking.now right.now }
    requires left { FitsOn asking.now (dated asking.now left.now) names.now day }
    requires right { FitsOn asking.now (dated asking.now right.now) names.now day }
    ensures { result ≡ both_on asking.now
        (dated asking.now left.now) (dated asking.now right.now) names.now day }
{
    let left = evaluate(asking, left, names, day)?;
    let right = evaluate(asking, right, names, day)?;
    Ok(Operands { left, right })
}

// Two truth values; the right one is looked at only where the left does not decide.
#[cycle(evaluation)]
fn evaluate_logic(
    asking: &Asking,
    op: LogicOp,
    left: &Vx,
    right: &Vx,
    names: &Bindings,
    day: i64,
) -> Result<Typed, Missing>
    requires dates { HasDates asking.now left.now × HasDates asking.now right.now }
    requires fits { FitsOn asking.now (logic_over asking.now op left.now right.now) names.now day }
    ensures { result
        ≡ run_on asking.now (logic_over asking.now op left.now right.now) names.now day }
{
    let left = evaluate(asking, left, names, day)?.value.is_true();
    if is_decided(op, left) {
        return Ok(verdict(left));
    }
    let right = evaluate(asking, right, names, day)?.value.is_true();
    Ok(verdict(right))
}

// A branch, at the kind of both; of the one that is not taken only the kind is asked for.
#[cycle(evaluation)]
fn evaluate_branches(
    asking: &Asking,
    test: &Vx,
    yes: &Vx,
    no: &Vx,
    names: &Bindings,
    day: i64,
) -> Result<Typed, Missing>
    requires dates { HasDates asking.now test.now × HasDates asking.now yes.now
        × HasDates asking.now no.now }
    requires fits { FitsOn asking.now
        (conditional_over asking.now test.now yes.now no.now) names.now day }
    ensures { result ≡ run_on asking.now
        (conditional_over asking.now test.now yes.now no.now) names.now day }
{
    let test = evaluate(asking, test, names, day)?;
    if test.value.is_true() {
        let taken = evaluate(asking, yes, names, day)?;
        let kind = taken.kind.either(kind_in(asking, no, names));
        Ok(at_kind(kind, taken))
    } else {
        let taken = evaluate(asking, no, names, day)?;
        let kind = kind_in(asking, yes, names).either(taken.kind);
        Ok(at_kind(kind, taken))
    }
}

// An accumulator after its days, from its start, which stands on the day before the first of them.
#[cycle(evaluation)]
fn evaluate_days(
    asking: &Asking,
    body: &Vx,
    days: u32,
    start: Result<Typed, Missing>,
    names: &Bindings,
    from: i64,
) -> Result<Typed, Missing>
    requires dates { HasDates asking.now body.now }
    requires fits { DaysFitOn asking.now (dated asking.now body.now) names.now from days start }
    requires first { IsDay from }
    ensures { result
        ≡ days_run_on asking.now (dated asking.now body.now) names.now from days start }
{
    let mut value = start?;
    for i in 0..days {
        let day = days_later(from, i + 1);
        value = evaluate_day(asking, body, value, names, day)?;
    }
    Ok(value)
}

// An accumulator after one more day, from its value before.
#[cycle(evaluation)]
fn evaluate_day(
    asking: &Asking,
    body: &Vx,
    value: Typed,
    names: &Bindings,
    day: i64,
) -> Result<Typed, Missing>
    requires dates { HasDates asking.now body.now }
    requires fits { DayFitsOn asking.now (dated asking.now body.now) names.now day value }
    ensures { result ≡ day_run_on asking.now (dated asking.now body.now) names.now day value }
{
    let held = Held::Known { value: value.value };
    let inner = Bindings::Inner {
        binding: Binding {
            kind: value.kind,
            held,
        },
        outer: &*names,
    };
    let next = evaluate(asking, body, &inner, day)?;
    Ok(at_kind(value.kind, next))
}
