//! Tests, tried on one day after another.

ghost use Rattle.std.specs.Prelude.{◌≡◌, ◌≤◌, ◌^◌, unsigned_abs, IfOk};
ghost use Rattle.term_model.specs.Declarations.{declarations};
ghost use Rattle.term_model.specs.Terms.{expression};
ghost use Rattle.term_model.specs.Environments.{IsAdmitted};
ghost use Rattle.expr_eval.specs.Fits.{IsDay};
ghost use Rattle.expr_eval.specs.Evaluable.{MayEvaluate};
ghost use Rattle.expr_eval.specs.Evaluations.{ComparesIn, FitsIn, answer_in, comparison, first_in, kinds_in};
ghost use Rattle.expr_eval.specs.Comparing.{factors_found, number_found, truth_found, OnDays, SidesFit};
ghost use Rattle.expr_eval.specs.Trials.{IsFirstTrue, IsOneOf};

use crate::bindings::Bindings;
use crate::comparisons::{Factors, compare_brought, factors_of};
use crate::evaluation::{evaluate, mantissa_observed};
use crate::kinds::kind_in;
use crate::scratch::Scratch;
use crate::searches::search;
use crate::truths::holds;
use fixing_files::Fixings;
use term_model::{CmpOp, Decls, Expr, Missing, day_read, days_later};

/// A comparison, and its factors.
#[derive(Clone, Copy)]
pub struct Comparison<'a> {
    pub op: CmpOp,
    pub left: &'a Expr,
    pub right: &'a Expr,
    pub by: Factors,
}

// The factors of two sides, which are the same on each day.
fn factors_between(decls: &Decls, left: &Expr, right: &Expr, names: &Bindings) -> Factors
    requires { SidesFit (declarations decls.now) (expression left.now) (expression right.now)
        (kinds_in names.now) }
    ensures { result ≡ factors_found (declarations decls.now) (expression left.now)
        (expression right.now) (kinds_in names.now) }
{
    let i = kind_in(decls, left, names).scale();
    let j = kind_in(decls, right, names).scale();
    factors_of(i, j)
}

// The mantissa of an expression. That of a literal, and of what is observed, is at hand.
fn mantissa_of(
    decls: &Decls,
    e: &Expr,
    names: &Bindings,
    fixings: &Fixings,
    day: i64,
) -> Result<i128, Missing>
    requires { FitsIn decls.now (expression e.now) names.now fixings.now day }
    ensures { result ≡ number_found (answer_in decls.now (expression e.now) names.now
        fixings.now day) }
{
    match e {
        Expr::Lit { mant, .. } => Ok(*mant),
        Expr::Obs { label, offset } => mantissa_observed(*label, day_read(day, *offset), fixings),
        _ => {
            let found = evaluate(decls, e, names, fixings, day)?;
            Ok(found.value.number())
        }
    }
}

// Whether a comparison holds on a day.
fn compares_on(
    decls: &Decls,
    test: &Comparison,
    names: &Bindings,
    fixings: &Fixings,
    day: i64,
) -> Result<bool, Missing>
    requires { ComparesIn decls.now test.now names.now fixings.now day }
    ensures { result ≡ truth_found (answer_in decls.now (comparison test.now) names.now
        fixings.now day) }
{
    let x = mantissa_of(decls, test.left, names, fixings, day)?;
    let y = mantissa_of(decls, test.right, names, fixings, day)?;
    Ok(compare_brought(test.op, x, y, test.by))
}

// The first of some days on which a comparison holds, whatever its sides are.
fn first_day_compared(
    decls: &Decls,
    test: &Comparison,
    names: &Bindings,
    fixings: &Fixings,
    from: i64,
    days: u32,
) -> Result<Option<u32>, Missing>
    requires first { IsDay from }
    requires fits { OnDays (λ day. ComparesIn decls.now test.now names.now fixings.now day)
        from days }
    ensures days { result ≡ first_in decls.now (comparison test.now) names.now
        fixings.now from days }
    ensures found { IfOk result (λ first. IsOneOf days first) }
{
    for i in 0..days {
        let day = days_later(from, i);
        let holds = compares_on(decls, test, names, fixings, day)?;
        if holds {
            return Ok(Some(i));
        }
    }
    Ok(None)
}

// The first of some days on which any other test holds.
fn first_held(
    decls: &Decls,
    test: &Expr,
    names: &Bindings,
    fixings: &Fixings,
    from: i64,
    days: u32,
) -> Result<Option<u32>, Missing>
    requires first { IsDay from }
    requires fits { OnDays (λ day. FitsIn decls.now (expression test.now) names.now fixings.now day)
        from days }
    ensures days { result ≡ first_in decls.now (expression test.now) names.now
        fixings.now from days }
    ensures found { IfOk result (λ first. IsOneOf days first) }
{
    for i in 0..days {
        let day = days_later(from, i);
        let holds = holds(decls, test, names, fixings, day)?;
        if holds {
            return Ok(Some(i));
        }
    }
    Ok(None)
}

/// The first of some days, from a day of the portfolio on, on which a test holds, counted from 0;
/// none where it holds on no one of them. It lacks a place exactly where a day before that one
/// reads one that is not fixed, and then answers the first. It is what `eval` answers day after
/// day, and takes no memory; what does not depend on the day is done once.
pub fn first_true(
    decls: &Decls,
    test: &Expr,
    scratch: &Scratch,
    fixings: &Fixings,
    from: i64,
    days: u32,
) -> Result<Option<u32>, Missing>
    requires place { MayEvaluate (declarations decls.now)
        (expression test.now) scratch.now.entries }
    requires admitted { IsAdmitted (declarations decls.now) fixings.now }
    requires day { unsigned_abs from ≤ 10 ^ 11 }
    ensures answer { IsFirstTrue (declarations decls.now) (expression test.now) scratch.now.entries
        fixings.now from days result }
    ensures found { IfOk result (λ first. IsOneOf days first) }
{
    let names = Bindings::Lent { scratch };
    if let Some(stop) = search(decls, test, true, &names, fixings, from, days) {
        return stop.day();
    }
    match test {
        Expr::Cmp { op, left, right } => {
            let by = factors_between(decls, left, right, &names);
            let test = Comparison {
                op: *op,
                left: &**left,
                right: &**right,
                by,
            };
            first_day_compared(decls, &test, &names, fixings, from, days)
        }
        _ => first_held(decls, test, &names, fixings, from, days),
    }
}
