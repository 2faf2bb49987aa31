//! Code whose payments are cut once they are gone by.

ghost use Rattle.std.specs.Prelude.{◌≡◌, IfOk};
ghost use Rattle.payoff_terms.specs.Code.{payoff_code, value_expression, PayOn, Add, ScaleBy, LetBe, Loop, Cut};
ghost use Rattle.payoff_terms.specs.TemplateDates.{date};
ghost use Rattle.payoff_terms.specs.Compiled.{cut_code};
ghost use Rattle.payoff_compile.specs.CompiledCode.{CountsTheRest};

use decimal::NoMemory;
use payoff_terms::{Code, DateExpr, Vx, copied_date};
use std::alloc::Global;

// Code with each payment cut on its date. A function pays at entry for the locals of all its arms,
// so each form with parts has one of its own.
#[cycle(cutting)]
fn with_cuts(alloc: Global, code: Code) -> Result<Code, NoMemory>
    ensures { IfOk result (λ k. payoff_code k ≡ cut_code (payoff_code code)) }
{
    match code {
        Code::None => Ok(Code::None),
        Code::Pay {
            date,
            asset,
            from,
            to,
        } => cut_payment(alloc, date, asset, from, to),
        Code::Add { left, right } => cut_both(alloc, left, right),
        Code::Scale { factor, body } => cut_scaled(alloc, factor, body),
        Code::Let { bound, body } => cut_bound(alloc, bound, body),
        Code::LoopIf {
            test,
            upto,
            hit,
            miss,
        } => cut_branches(alloc, test, upto, hit, miss),
        Code::Cut { date, body } => cut_body(alloc, date, body),
    }
}

// A payment that is cut on its date.
fn cut_payment(
    alloc: Global,
    on: DateExpr,
    asset: u32,
    from: u32,
    to: u32,
) -> Result<Code, NoMemory>
    ensures { IfOk result (λ k. payoff_code k ≡ cut_code (PayOn (date on) asset from to)) }
{
    let day = copied_date(alloc, &on)?;
    let payment = Code::Pay {
        date: on,
        asset,
        from,
        to,
    };
    let body = Box::new(alloc, payment)?;
    Ok(Code::Cut { date: day, body })
}

// Boxed code with its cuts.
#[cycle(cutting)]
fn boxed_with_cuts(alloc: Global, code: Box<Code>) -> Result<Box<Code>, NoMemory>
    ensures { IfOk result (λ k. payoff_code k.value ≡ cut_code (payoff_code code.value)) }
{
    let inner = with_cuts(alloc, Box::into_inner(code))?;
    let boxed = Box::new(alloc, inner)?;
    Ok(boxed)
}

// Two codes together with their cuts.
#[cycle(cutting)]
fn cut_both(alloc: Global, left: Box<Code>, right: Box<Code>) -> Result<Code, NoMemory>
    ensures { IfOk result (λ k. payoff_code k
        ≡ cut_code (Add (payoff_code left.value) (payoff_code right.value))) }
{
    let left = boxed_with_cuts(alloc, left)?;
    let right = boxed_with_cuts(alloc, right)?;
    Ok(Code::Add { left, right })
}

// Code that is multiplied by a factor, with its cuts.
#[cycle(cutting)]
fn cut_scaled(alloc: Global, factor: Vx, body: Box<Code>) -> Result<Code, NoMemory>
    ensures { IfOk result (λ k. payoff_code k
        ≡ cut_code (ScaleBy (value_expression factor) (payoff_code body.value))) }
{
    let body = boxed_with_cuts(alloc, body)?;
    Ok(Code::Scale { factor, body })
}

// Code with a name for what is bound, with its cuts.
#[cycle(cutting)]
fn cut_bound(alloc: Global, bound: Vx, body: Box<Code>) -> Result<Code, NoMemory>
    ensures { IfOk result (λ k. payoff_code k
        ≡ cut_code (LetBe (value_expression bound) (payoff_code body.value))) }
{
    let body = boxed_with_cuts(alloc, body)?;
    Ok(Code::Let { bound, body })
}

// Both branches of a loop with their cuts.
#[cycle(cutting)]
fn cut_branches(
    alloc: Global,
    test: Vx,
    upto: DateExpr,
    hit: Box<Code>,
    miss: Box<Code>,
) -> Result<Code, NoMemory>
    ensures { IfOk result (λ k. payoff_code k ≡ cut_code (Loop (value_expression test)
        (date upto) (payoff_code hit.value) (payoff_code miss.value))) }
{
    let hit = boxed_with_cuts(alloc, hit)?;
    let miss = boxed_with_cuts(alloc, miss)?;
    Ok(Code::LoopIf {
        test,
        upto,
        hit,
        miss,
    })
}

// Code that is cut on a date, with further cuts.
#[cycle(cutting)]
fn cut_body(alloc: Global, on: DateExpr, body: Box<Code>) -> Result<Code, NoMemory>
    ensures { IfOk result (λ k. payoff_code k
        ≡ cut_code (Cut (date on) (payoff_code body.value))) }
{
    let body = boxed_with_cuts(alloc, body)?;
    Ok(Code::Cut { date: on, body })
}

/// The code with each payment cut once its day is gone by, so that it counts what is left to be
/// paid. Where memory is wanting, the code that was given is dropped.
pub fn cut(alloc: Global, code: Code) -> Result<Code, NoMemory>
    ensures code { IfOk result (λ k. payoff_code k ≡ cut_code (payoff_code code)) }
    ensures rest { IfOk result (λ k. CountsTheRest (payoff_code k) (payoff_code code)) }
{
    with_cuts(alloc, code)
}
