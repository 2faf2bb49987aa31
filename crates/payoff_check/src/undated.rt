//! Value expressions without their dates, as which they have their sorts, scales and ranges. An
//! undated expression is made where a value expression stands, and dropped after it was tried. A
//! function pays at entry for the locals of all its arms, so each form with parts has one of its
//! own.

ghost use Rattle.std.specs.Prelude.{◌≡◌, IfOk};
ghost use Rattle.term_model.specs.Terms.{expression, Neg, Num, Cmp, Not, Logic, Cond};
ghost use Rattle.term_model.specs.Terms.{Widen, Round, Div, Acc};
ghost use Rattle.payoff_check.specs.Trials.{undated_value};

use decimal::{Mode, NoMemory};
use payoff_terms::Vx;
use std::alloc::Global;
use term_model::{CmpOp, Expr, LogicOp, NumOp};

/// The expression of a value expression in which each observable is read on the day itself: no rule
/// but that on sizes sees a date.
#[cycle(undated)]
pub fn undated_of(alloc: Global, v: &Vx) -> Result<Expr, NoMemory>
    ensures { IfOk result (λ e. expression e ≡ undated_value v.now) }
{
    match v {
        Vx::Lit { mant, scale } => Ok(Expr::Lit {
            mant: *mant,
            scale: *scale,
        }),
        Vx::Yes { value } => Ok(Expr::Yes { value: *value }),
        Vx::Var { back } => Ok(Expr::Var { back: *back }),
        Vx::Model { label, .. } => Ok(Expr::Obs {
            label: *label,
            offset: 0,
        }),
        Vx::Neg { of } => undated_negative(alloc, of),
        Vx::Num { op, left, right } => undated_num(alloc, *op, left, right),
        Vx::Cmp { op, left, right } => undated_cmp(alloc, *op, left, right),
        Vx::Not { of } => undated_not(alloc, of),
        Vx::Logic { op, left, right } => undated_logic(alloc, *op, left, right),
        Vx::Cond { test, yes, no } => undated_choice(alloc, test, yes, no),
        Vx::Widen { scale, of } => undated_widened(alloc, *scale, of),
        Vx::Round { mode, scale, of } => undated_rounded(alloc, *mode, *scale, of),
        Vx::Div {
            mode,
            scale,
            top,
            below,
        } => undated_quotient(alloc, *mode, *scale, top, below),
        Vx::Acc { body, days, first } => undated_acc(alloc, body, *days, first),
    }
}

// An undated expression in a box of its own.
#[cycle(undated)]
fn undated_boxed(alloc: Global, v: &Vx) -> Result<Box<Expr>, NoMemory>
    ensures { IfOk result (λ e. expression e.value ≡ undated_value v.now) }
{
    let undated = undated_of(alloc, v)?;
    let boxed = Box::new(alloc, undated)?;
    Ok(boxed)
}

#[cycle(undated)]
fn undated_negative(alloc: Global, of: &Vx) -> Result<Expr, NoMemory>
    ensures { IfOk result (λ e. expression e ≡ Neg (undated_value of.now)) }
{
    let of = undated_boxed(alloc, of)?;
    Ok(Expr::Neg { of })
}

#[cycle(undated)]
fn undated_num(alloc: Global, op: NumOp, left: &Vx, right: &Vx) -> Result<Expr, NoMemory>
    ensures { IfOk result
        (λ e. expression e ≡ Num op (undated_value left.now) (undated_value right.now)) }
{
    let left = undated_boxed(alloc, left)?;
    let right = undated_boxed(alloc, right)?;
    Ok(Expr::Num { op, left, right })
}

#[cycle(undated)]
fn undated_cmp(alloc: Global, op: CmpOp, left: &Vx, right: &Vx) -> Result<Expr, NoMemory>
    ensures { IfOk result
        (λ e. expression e ≡ Cmp op (undated_value left.now) (undated_value right.now)) }
{
    let left = undated_boxed(alloc, left)?;
    let right = undated_boxed(alloc, right)?;
    Ok(Expr::Cmp { op, left, right })
}

#[cycle(undated)]
fn undated_not(alloc: Global, of: &Vx) -> Result<Expr, NoMemory>
    ensures { IfOk result (λ e. expression e ≡ Not (undated_value of.now)) }
{
    let of = undated_boxed(alloc, of)?;
    Ok(Expr::Not { of })
}

#[cycle(undated)]
fn undated_logic(alloc: Global, op: LogicOp, left: &Vx, right: &Vx) -> Result<Expr, NoMemory>
    ensures { IfOk result
        (λ e. expression e ≡ Logic op (undated_value left.now) (undated_value right.now)) }
{
    let left = undated_boxed(alloc, left)?;
    let right = undated_boxed(alloc, right)?;
    Ok(Expr::Logic { op, left, right })
}

#[cycle(undated)]
fn undated_choice(alloc: Global, test: &Vx, yes: &Vx, no: &Vx) -> Result<Expr, NoMemory>
    ensures { IfOk result (λ e. expression e
        ≡ Cond (undated_value test.now) (undated_value yes.now) (undated_value no.now)) }
{
    let test = undated_boxed(alloc, test)?;
    let yes = undated_boxed(alloc, yes)?;
    let no = undated_boxed(alloc, no)?;
    Ok(Expr::Cond { test, yes, no })
}

#[cycle(undated)]
fn undated_widened(alloc: Global, scale: u8, of: &Vx) -> Result<Expr, NoMemory>
    ensures { IfOk result (λ e. expression e ≡ Widen scale (undated_value of.now)) }
{
    let of = undated_boxed(alloc, of)?;
    Ok(Expr::Widen { scale, of })
}

#[cycle(undated)]
fn undated_rounded(alloc: Global, mode: Mode, scale: u8, of: &Vx) -> Result<Expr, NoMemory>
    ensures { IfOk result (λ e. expression e ≡ Round mode scale (undated_value of.now)) }
{
    let of = undated_boxed(alloc, of)?;
    Ok(Expr::Round { mode, scale, of })
}

#[cycle(undated)]
fn undated_quotient(
    alloc: Global,
    mode: Mode,
    scale: u8,
    top: &Vx,
    below: &Vx,
) -> Result<Expr, NoMemory>
    ensures { IfOk result
        (λ e. expression e ≡ Div mode scale (undated_value top.now) (undated_value below.now)) }
{
    let top = undated_boxed(alloc, top)?;
    let below = undated_boxed(alloc, below)?;
    Ok(Expr::Div {
        mode,
        scale,
        top,
        below,
    })
}

#[cycle(undated)]
fn undated_acc(alloc: Global, body: &Vx, days: u32, first: &Vx) -> Result<Expr, NoMemory>
    ensures { IfOk result
        (λ e. expression e ≡ Acc (undated_value body.now) days (undated_value first.now)) }
{
    let body = undated_boxed(alloc, body)?;
    let first = undated_boxed(alloc, first)?;
    Ok(Expr::Acc { body, days, first })
}
