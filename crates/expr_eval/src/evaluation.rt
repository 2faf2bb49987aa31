//! The evaluator: values with their kinds, or the first place that is not fixed.

ghost use Rattle.std.specs.Prelude.{◌≡◌, ◌+◌, slice_get, IsTrue};
ghost use Rattle.term_model.specs.Declarations.{declarations};
ghost use Rattle.term_model.specs.Terms.{expression};
ghost use Rattle.term_model.specs.Environments.{held};
ghost use Rattle.expr_eval.specs.Bindings.{bindings};
ghost use Rattle.expr_eval.specs.Runs.{day_run, kind_observed, observation, of_binding, of_held, of_place, run_of, untyped};
ghost use Rattle.expr_eval.specs.Fits.{DayFitsIn, Fits, IsDay};
ghost use Rattle.expr_eval.specs.Operators.{OneFits, one_run};
ghost use Rattle.expr_eval.specs.Comparing.{mantissa_held, number_found};
ghost use Rattle.expr_eval.specs.Evaluations.{DaysFitFrom, FitsIn, combination_over, comparison_over, conditional_over, days_from, logic_over, quotient_over};
ghost use Rattle.expr_eval.specs.LevelDays.{IsLevel, StaysLevel, number_of};

use crate::bindings::Bindings;
use crate::kinds::{kind_in, kind_observed};
use crate::levels::stays_level;
use crate::operations::{
    Operands, Typed, at_kind, combine, compare, divide, is_decided, number, on_aligned, verdict,
};
use crate::operators::{OnOne, done_on_one};
use crate::scratch::{Binding, Held, Scratch};
use crate::sums::sum_over;
use decimal::Mode;
use fixing_files::Fixings;
use term_model::{
    CmpOp, Decls, Expr, Kind, LogicOp, Missing, NumOp, Value, day_read, days_earlier, days_later,
};

// The value that an entry holds, with its kind.
fn value_held(binding: &Binding) -> Result<Typed, Missing>
    ensures { result ≡ of_held binding.now.kind binding.now.held }
{
    match binding.held {
        Held::Known { value } => Ok(Typed {
            kind: binding.kind,
            value,
        }),
        Held::Lacking { missing } => Err(missing),
    }
}

// The value of an entry of a scratch. It stands apart, since an entry is copied here.
fn value_entered(scratch: &Scratch, back: u32) -> Result<Typed, Missing>
    ensures { result ≡ of_binding (slice_get scratch.now.entries back) }
{
    match scratch.at(back as usize) {
        Some(binding) => value_held(&binding),
        None => Ok(verdict(false)),
    }
}

/// The value of the name that is bound `back` binders further out than the innermost.
pub fn value_bound(names: &Bindings, back: u32) -> Result<Typed, Missing>
    ensures { result ≡ of_binding (slice_get (bindings names.now) back) }
{
    match names {
        Bindings::Lent { scratch } => value_entered(scratch, back),
        Bindings::Inner { binding, outer } => {
            if back == 0 {
                value_held(binding)
            } else {
                value_bound(outer, back - 1)
            }
        }
    }
}

/// What was found at a label on a day, with its kind, or the place as one that is missing.
pub fn value_found(
    decls: &Decls,
    label: u32,
    day: i64,
    found: Option<Value>,
) -> Result<Typed, Missing>
    ensures { result ≡ of_place (kind_observed (declarations decls.now) label) found label day }
{
    match found {
        Some(value) => Ok(Typed {
            kind: kind_observed(decls, label),
            value,
        }),
        None => Err(Missing { label, day }),
    }
}

/// The value of what is observed on a day.
pub fn value_observed(
    decls: &Decls,
    label: u32,
    day: i64,
    fixings: &Fixings,
) -> Result<Typed, Missing>
    ensures { result ≡ observation (declarations decls.now) fixings.now label day }
{
    value_found(decls, label, day, fixings.get(label, day))
}

/// An answer, without the kind of its value.
pub fn without_kind(found: Result<Typed, Missing>) -> Result<Value, Missing>
    ensures { result ≡ untyped found }
{
    match found {
        Ok(found) => Ok(found.value),
        Err(missing) => Err(missing),
    }
}

/// The value of an expression with its kind, or the first place that is not fixed.
#[cycle(evaluation)]
pub fn evaluate(
    decls: &Decls,
    e: &Expr,
    names: &Bindings,
    fixings: &Fixings,
    day: i64,
) -> Result<Typed, Missing>
    requires { Fits (declarations decls.now) (expression e.now) (bindings names.now)
        fixings.now day }
    ensures { result ≡ run_of (declarations decls.now) (expression e.now) (bindings names.now)
        fixings.now day }
{
    match e {
        Expr::Lit { mant, scale } => Ok(number(*scale, *mant)),
        Expr::Yes { value } => Ok(verdict(*value)),
        Expr::Var { back } => value_bound(names, *back),
        Expr::Obs { label, offset } => value_observed(
            decls,
            *label,
            day_read(day, *offset),
            fixings,
        ),
        Expr::Neg { of } => evaluate_one(decls, OnOne::Negative, of, names, fixings, day),
        Expr::Num { op, left, right } => {
            evaluate_combined(decls, *op, left, right, names, fixings, day)
        }
        Expr::Cmp { op, left, right } => {
            evaluate_compared(decls, *op, left, right, names, fixings, day)
        }
        Expr::Not { of } => evaluate_one(decls, OnOne::Opposite, of, names, fixings, day),
        Expr::Logic { op, left, right } => {
            evaluate_logic(decls, *op, left, right, names, fixings, day)
        }
        Expr::Cond { test, yes, no } => {
            evaluate_branches(decls, test, yes, no, names, fixings, day)
        }
        Expr::Widen { scale, of } => {
            let kind = Kind::Number { scale: *scale };
            evaluate_one(decls, OnOne::At { kind }, of, names, fixings, day)
        }
        Expr::Round { mode, scale, of } => {
            let op = OnOne::Rounded {
                mode: *mode,
                scale: *scale,
            };
            evaluate_one(decls, op, of, names, fixings, day)
        }
        Expr::Div {
            mode,
            scale,
            top,
            below,
        } => evaluate_quotient(decls, *mode, *scale, top, below, names, fixings, day),
        Expr::Acc { body, days, first } => {
            let from = days_earlier(day, *days);
            evaluate_days(decls, body, *days, first, names, fixings, from)
        }
    }
}

// What is done with the value of one part. It stands apart, as all arms do that hold values: a
// function takes room for the values of all its arms each time that it is called.
#[cycle(evaluation)]
fn evaluate_one(
    decls: &Decls,
    op: OnOne,
    of: &Expr,
    names: &Bindings,
    fixings: &Fixings,
    day: i64,
) -> Result<Typed, Missing>
    requires { OneFits (declarations decls.now) op (expression of.now) (bindings names.now)
        fixings.now day }
    ensures { result ≡ one_run (declarations decls.now) op (expression of.now) (bindings names.now)
        fixings.now day }
{
    let of = evaluate(decls, of, names, fixings, day)?;
    Ok(done_on_one(op, of))
}

// An operator on two numbers, the left one first.
#[cycle(evaluation)]
fn evaluate_combined(
    decls: &Decls,
    op: NumOp,
    left: &Expr,
    right: &Expr,
    names: &Bindings,
    fixings: &Fixings,
    day: i64,
) -> Result<Typed, Missing>
    requires { Fits (declarations decls.now) (combination_over op left.now right.now)
        (bindings names.now) fixings.now day }
    ensures { result ≡ run_of (declarations decls.now) (combination_over op left.now right.now)
        (bindings names.now) fixings.now day }
{
    let left = evaluate(decls, left, names, fixings, day)?;
    let right = evaluate(decls, right, names, fixings, day)?;
    Ok(combine(op, Operands { left, right }))
}

// A comparison of two numbers, the left one first.
#[cycle(evaluation)]
fn evaluate_compared(
    decls: &Decls,
    op: CmpOp,
    left: &Expr,
    right: &Expr,
    names: &Bindings,
    fixings: &Fixings,
    day: i64,
) -> Result<Typed, Missing>
    requires { Fits (declarations decls.now) (comparison_over op left.now right.now)
        (bindings names.now) fixings.now day }
    ensures { result ≡ run_of (declarations decls.now) (comparison_over op left.now right.now)
        (bindings names.now) fixings.now day }
{
    let left = evaluate(decls, left, names, fixings, day)?;
    let right = evaluate(decls, right, names, fixings, day)?;
    Ok(compare(op, Operands { left, right }))
}

// A quotient of two numbers, the top one first.
#[cycle(evaluation)]
fn evaluate_quotient(
    decls: &Decls,
    mode: Mode,
    scale: u8,
    top: &Expr,
    below: &Expr,
    names: &Bindings,
    fixings: &Fixings,
    day: i64,
) -> Result<Typed, Missing>
    requires { Fits (declarations decls.now) (quotient_over mode scale top.now below.now)
        (bindings names.now) fixings.now day }
    ensures { result ≡ run_of (declarations decls.now) (quotient_over mode scale top.now below.now)
        (bindings names.now) fixings.now day }
{
    let left = evaluate(decls, top, names, fixings, day)?;
    let right = evaluate(decls, below, names, fixings, day)?;
    Ok(divide(mode, scale, Operands { left, right }))
}

// Two truth values; the right one is looked at only where the left does not decide.
#[cycle(evaluation)]
fn evaluate_logic(
    decls: &Decls,
    op: LogicOp,
    left: &Expr,
    right: &Expr,
    names: &Bindings,
    fixings: &Fixings,
    day: i64,
) -> Result<Typed, Missing>
    requires { Fits (declarations decls.now) (logic_over op left.now right.now) (bindings names.now)
        fixings.now day }
    ensures { result ≡ run_of (declarations decls.now) (logic_over op left.now right.now)
        (bindings names.now) fixings.now day }
{
    let left = evaluate(decls, left, names, fixings, day)?.value.is_true();
    if is_decided(op, left) {
        return Ok(verdict(left));
    }
    let right = evaluate(decls, right, names, fixings, day)?.value.is_true();
    Ok(verdict(right))
}

// A branch, at the kind of both; of the one that is not taken only the kind is asked for.
#[cycle(evaluation)]
fn evaluate_branches(
    decls: &Decls,
    test: &Expr,
    yes: &Expr,
    no: &Expr,
    names: &Bindings,
    fixings: &Fixings,
    day: i64,
) -> Result<Typed, Missing>
    requires { Fits (declarations decls.now) (conditional_over test.now yes.now no.now)
        (bindings names.now) fixings.now day }
    ensures { result ≡ run_of (declarations decls.now) (conditional_over test.now yes.now no.now)
        (bindings names.now) fixings.now day }
{
    let test = evaluate(decls, test, names, fixings, day)?;
    if test.value.is_true() {
        let taken = evaluate(decls, yes, names, fixings, day)?;
        let kind = taken.kind.either(kind_in(decls, no, names));
        Ok(at_kind(kind, taken))
    } else {
        let taken = evaluate(decls, no, names, fixings, day)?;
        let kind = kind_in(decls, yes, names).either(taken.kind);
        Ok(at_kind(kind, taken))
    }
}

/// An accumulator after its days, from its start, which stands on the day before the first of them.
#[cycle(evaluation)]
pub fn evaluate_days(
    decls: &Decls,
    body: &Expr,
    days: u32,
    first: &Expr,
    names: &Bindings,
    fixings: &Fixings,
    from: i64,
) -> Result<Typed, Missing>
    requires start { Fits (declarations decls.now) (expression first.now) (bindings names.now)
        fixings.now from }
    requires days { DaysFitFrom (declarations decls.now) body.now first.now (bindings names.now)
        fixings.now from days }
    requires day { IsDay from }
    ensures { result ≡ days_from (declarations decls.now) body.now first.now (bindings names.now)
        fixings.now from days }
{
    let mut value = evaluate(decls, first, names, fixings, from)?;
    let level = stays_level(decls, body, names, value);
    if level {
        if let Some(sum) = sum_over(body, value, fixings, from, days) {
            return Ok(sum);
        }
    }
    for i in 0..days {
        let day = days_later(from, i + 1);
        value = evaluate_day(decls, body, level, value, names, fixings, day)?;
    }
    Ok(value)
}

// An accumulator after one more day, from its value before. Where it stays level, only the number
// is asked for.
#[cycle(evaluation)]
fn evaluate_day(
    decls: &Decls,
    body: &Expr,
    level: bool,
    value: Typed,
    names: &Bindings,
    fixings: &Fixings,
    day: i64,
) -> Result<Typed, Missing>
    requires fits { DayFitsIn (declarations decls.now) (expression body.now) (bindings names.now)
        fixings.now day value }
    requires level { IsTrue level → StaysLevel decls.now body.now names.now value }
    ensures { result ≡ day_run (declarations decls.now) (expression body.now) (bindings names.now)
        fixings.now day value }
{
    let held = Held::Known { value: value.value };
    let inner = Bindings::Inner {
        binding: Binding {
            kind: value.kind,
            held,
        },
        outer: &*names,
    };
    if level {
        let mant = mantissa_at(decls, body, &inner, fixings, day)?;
        return Ok(Typed {
            kind: value.kind,
            value: Value::Num { mant },
        });
    }
    let next = evaluate(decls, body, &inner, fixings, day)?;
    Ok(at_kind(value.kind, next))
}

// The mantissa of the number that an entry holds.
fn mantissa_entered(binding: &Binding) -> Result<i128, Missing>
    ensures { result ≡ number_found (of_held binding.now.kind binding.now.held) }
{
    match binding.held {
        Held::Known { value } => Ok(value.number()),
        Held::Lacking { missing } => Err(missing),
    }
}

// The mantissa of a name.
fn mantissa_bound(names: &Bindings, back: u32) -> Result<i128, Missing>
    ensures { result ≡ number_found (of_binding (slice_get (bindings names.now) back)) }
{
    match names {
        Bindings::Lent { scratch } => match scratch.at(back as usize) {
            Some(binding) => mantissa_entered(&binding),
            None => Ok(0),
        },
        Bindings::Inner { binding, outer } => {
            if back == 0 {
                mantissa_entered(binding)
            } else {
                mantissa_bound(outer, back - 1)
            }
        }
    }
}

/// The mantissa of what is observed on a day; a truth value has none, and counts as 0.
pub fn mantissa_observed(label: u32, day: i64, fixings: &Fixings) -> Result<i128, Missing>
    ensures { result ≡ mantissa_held (held fixings.now (record { label = label; day = day }))
        label day }
{
    match fixings.get(label, day) {
        Some(value) => Ok(value.number()),
        None => Err(Missing { label, day }),
    }
}

// The mantissa of a level expression. It has the scale of each of its operands, so no kind is
// looked up.
#[inline(always)]
#[cycle(evaluation)]
fn mantissa_at(
    decls: &Decls,
    e: &Expr,
    names: &Bindings,
    fixings: &Fixings,
    day: i64,
) -> Result<i128, Missing>
    requires level { IsLevel decls.now (expression e.now) names.now }
    requires fits { FitsIn decls.now (expression e.now) names.now fixings.now day }
    ensures { result ≡ number_of decls.now (expression e.now) names.now fixings.now day }
{
    match e {
        Expr::Lit { mant, .. } => Ok(*mant),
        Expr::Var { back } => mantissa_bound(names, *back),
        Expr::Obs { label, offset } => mantissa_observed(*label, day_read(day, *offset), fixings),
        Expr::Num { op, left, right } => {
            mantissa_combined(decls, *op, left, right, names, fixings, day)
        }
        Expr::Cond { test, yes, no } => {
            mantissa_chosen(decls, test, yes, no, names, fixings, day)
        }
        _ => mantissa_otherwise(decls, e, names, fixings, day),
    }
}

// The mantissa of any other expression.
#[cycle(evaluation)]
fn mantissa_otherwise(
    decls: &Decls,
    e: &Expr,
    names: &Bindings,
    fixings: &Fixings,
    day: i64,
) -> Result<i128, Missing>
    requires { FitsIn decls.now (expression e.now) names.now fixings.now day }
    ensures { result ≡ number_of decls.now (expression e.now) names.now fixings.now day }
{
    let found = evaluate(decls, e, names, fixings, day)?;
    Ok(found.value.number())
}

// The mantissa of an operator on two numbers of its scale, the left one first.
#[cycle(evaluation)]
fn mantissa_combined(
    decls: &Decls,
    op: NumOp,
    left: &Expr,
    right: &Expr,
    names: &Bindings,
    fixings: &Fixings,
    day: i64,
) -> Result<i128, Missing>
    requires level { IsLevel decls.now (combination_over op left.now right.now) names.now }
    requires fits { FitsIn decls.now (combination_over op left.now right.now) names.now
        fixings.now day }
    ensures { result ≡ number_of decls.now (combination_over op left.now right.now) names.now
        fixings.now day }
{
    let x = mantissa_at(decls, left, names, fixings, day)?;
    let y = mantissa_at(decls, right, names, fixings, day)?;
    Ok(on_aligned(op, x, y))
}

// The mantissa of the branch that is taken, which has the scale of both.
#[cycle(evaluation)]
fn mantissa_chosen(
    decls: &Decls,
    test: &Expr,
    yes: &Expr,
    no: &Expr,
    names: &Bindings,
    fixings: &Fixings,
    day: i64,
) -> Result<i128, Missing>
    requires level { IsLevel decls.now (conditional_over test.now yes.now no.now) names.now }
    requires fits { FitsIn decls.now (conditional_over test.now yes.now no.now) names.now
        fixings.now day }
    ensures { result ≡ number_of decls.now (conditional_over test.now yes.now no.now) names.now
        fixings.now day }
{
    let chosen = evaluate(decls, test, names, fixings, day)?;
    if chosen.value.is_true() {
        mantissa_at(decls, yes, names, fixings, day)
    } else {
        mantissa_at(decls, no, names, fixings, day)
    }
}
