//! Expressions whose observables are read on other days, or on the same: a copy. A function pays
//! at entry for the locals of all its arms. So each form has a function of its own, and a node pays
//! for none of the others.

ghost use Rattle.std.specs.Prelude.{◌≡◌, ◌+ℤ◌, IfOk};
ghost use Rattle.term_model.specs.Terms.{expression, Lit, Yes, Var, Obs, Cond};
ghost use Rattle.term_model.specs.Rebuilding.{over_one, over_two, IsOverOne, IsOverTwo};
ghost use Rattle.term_model.specs.Shifts.{shifted, CanMove, CanShift};

use crate::terms::Expr;
use decimal::NoMemory;
use std::alloc::Global;

/// The expression that reads each observable `by` days later.
#[tactic(auto, using(crate::proofs::ShiftedFacts::shift_moves))]
pub fn shift_obs(alloc: Global, e: &Expr, by: i32) -> Result<Expr, NoMemory>
    requires { CanShift by (expression e.now) }
    ensures { IfOk result (λ r. expression r ≡ shifted by (expression e.now)) }
{
    moved(alloc, e, by)
}

/// The expression that reads each observable `by` days later, or a copy, where these are none.
#[cycle(moving)]
pub fn moved(alloc: Global, e: &Expr, by: i32) -> Result<Expr, NoMemory>
    requires { CanMove by (expression e.now) }
    ensures { IfOk result (λ r. expression r ≡ shifted by (expression e.now)) }
{
    match e {
        Expr::Lit { mant, scale } => literal(*mant, *scale),
        Expr::Yes { value } => truth(*value),
        Expr::Var { back } => name(*back),
        Expr::Obs { label, offset } => place(*label, *offset, by),
        Expr::Neg { of } => moved_one(alloc, e, of, by),
        Expr::Not { of } => moved_one(alloc, e, of, by),
        Expr::Widen { of, .. } => moved_one(alloc, e, of, by),
        Expr::Round { of, .. } => moved_one(alloc, e, of, by),
        Expr::Num { left, right, .. } => moved_two(alloc, e, left, right, by),
        Expr::Cmp { left, right, .. } => moved_two(alloc, e, left, right, by),
        Expr::Logic { left, right, .. } => moved_two(alloc, e, left, right, by),
        Expr::Div { top, below, .. } => moved_two(alloc, e, top, below, by),
        Expr::Acc { body, first, .. } => moved_two(alloc, e, body, first, by),
        Expr::Cond { test, yes, no } => moved_choice(alloc, test, yes, no, by),
    }
}

// A literal number.
fn literal(mant: i128, scale: u8) -> Result<Expr, NoMemory>
    ensures { IfOk result (λ r. expression r ≡ Lit mant scale) }
{
    Ok(Expr::Lit { mant, scale })
}

// A literal truth value.
fn truth(value: bool) -> Result<Expr, NoMemory>
    ensures { IfOk result (λ r. expression r ≡ Yes value) }
{
    Ok(Expr::Yes { value })
}

// A bound name.
fn name(back: u32) -> Result<Expr, NoMemory>
    ensures { IfOk result (λ r. expression r ≡ Var back) }
{
    Ok(Expr::Var { back })
}

// An observable, read some days later.
fn place(label: u32, offset: i32, by: i32) -> Result<Expr, NoMemory>
    requires { CanMove by (Obs label offset) }
    ensures { IfOk result (λ r. expression r ≡ Obs label (offset +ℤ by)) }
{
    Ok(Expr::Obs {
        label,
        offset: offset + by,
    })
}

// A part that is read some days later.
#[cycle(moving)]
fn moved_part(alloc: Global, part: &Expr, by: i32) -> Result<Box<Expr>, NoMemory>
    requires { CanMove by (expression part.now) }
    ensures { IfOk result (λ r. expression r.value ≡ shifted by (expression part.now)) }
{
    let part = moved(alloc, part, by)?;
    Ok(Box::new(alloc, part)?)
}

// A node like this one over another part.
fn with_one(e: &Expr, of: Box<Expr>) -> Expr
    requires { IsOverOne (expression e.now) }
    ensures { expression result ≡ over_one (expression e.now) (expression of.value) }
{
    match e {
        Expr::Neg { .. } => Expr::Neg { of },
        Expr::Not { .. } => Expr::Not { of },
        Expr::Widen { scale, .. } => Expr::Widen { scale: *scale, of },
        Expr::Round { mode, scale, .. } => Expr::Round {
            mode: *mode,
            scale: *scale,
            of,
        },
        _ => unreachable!(),
    }
}

// A node over one part that is read some days later.
#[cycle(moving)]
fn moved_one(alloc: Global, e: &Expr, part: &Expr, by: i32) -> Result<Expr, NoMemory>
    requires one { IsOverOne (expression e.now) }
    requires part { CanMove by (expression part.now) }
    ensures { IfOk result (λ r. expression r
        ≡ over_one (expression e.now) (shifted by (expression part.now))) }
{
    let of = moved_part(alloc, part, by)?;
    Ok(with_one(e, of))
}

// A node like this one over two other parts.
fn with_two(e: &Expr, left: Box<Expr>, right: Box<Expr>) -> Expr
    requires { IsOverTwo (expression e.now) }
    ensures { expression result
        ≡ over_two (expression e.now) (expression left.value) (expression right.value) }
{
    match e {
        Expr::Num { op, .. } => Expr::Num {
            op: *op,
            left,
            right,
        },
        Expr::Cmp { op, .. } => Expr::Cmp {
            op: *op,
            left,
            right,
        },
        Expr::Logic { op, .. } => Expr::Logic {
            op: *op,
            left,
            right,
        },
        Expr::Div { mode, scale, .. } => Expr::Div {
            mode: *mode,
            scale: *scale,
            top: left,
            below: right,
        },
        Expr::Acc { days, .. } => Expr::Acc {
            body: left,
            days: *days,
            first: right,
        },
        _ => unreachable!(),
    }
}

// A node over two parts that are read some days later.
#[cycle(moving)]
fn moved_two(alloc: Global, e: &Expr, left: &Expr, right: &Expr, by: i32) -> Result<Expr, NoMemory>
    requires two { IsOverTwo (expression e.now) }
    requires left { CanMove by (expression left.now) }
    requires right { CanMove by (expression right.now) }
    ensures { IfOk result (λ r. expression r
        ≡ over_two (expression e.now)
        (shifted by (expression left.now)) (shifted by (expression right.now))) }
{
    let left = moved_part(alloc, left, by)?;
    let right = moved_part(alloc, right, by)?;
    Ok(with_two(e, left, right))
}

// A choice whose parts are read some days later.
#[cycle(moving)]
fn moved_choice(
    alloc: Global,
    test: &Expr,
    yes: &Expr,
    no: &Expr,
    by: i32,
) -> Result<Expr, NoMemory>
    requires test { CanMove by (expression test.now) }
    requires yes { CanMove by (expression yes.now) }
    requires no { CanMove by (expression no.now) }
    ensures { IfOk result (λ r. expression r ≡ Cond (shifted by (expression test.now))
        (shifted by (expression yes.now)) (shifted by (expression no.now))) }
{
    let test = moved_part(alloc, test, by)?;
    let yes = moved_part(alloc, yes, by)?;
    let no = moved_part(alloc, no, by)?;
    Ok(Expr::Cond { test, yes, no })
}
