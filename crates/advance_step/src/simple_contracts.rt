//! Simple contracts: transfers, sums, waits, and factors that are literals. Most contracts of a
//! book are simple, and no part of them reduces. What is left of such a contract is made of its own
//! parts, and needs no reducing.

ghost use Rattle.std.specs.Prelude.{◌≡◌, true, IfOk};
ghost use Rattle.term_model.specs.DayCounts.{Num as Count};
ghost use Rattle.term_model.specs.Terms.{contract, expression, Both, Scale, After};
ghost use Rattle.simplify.specs.TurningContracts.{is_later};
ghost use Rattle.advance_step.specs.SimpleContracts.{IsLeftAnywhere, IsReducedSimple, is_factor};
ghost use Rattle.advance_step.specs.WhatIsLeft as model;

use decimal::NoMemory;
use std::alloc::Global;
use term_model::{Contr, Days, Expr};

// Whether an expression is a decimal other than 0.
fn is_factor(e: &Expr) -> bool
    ensures { result ≡ is_factor (expression e.now) }
{
    match e {
        Expr::Lit { mant, .. } => *mant != 0,
        _ => false,
    }
}

/// Whether a contract waits.
pub fn is_later(c: &Contr) -> bool
    ensures { result ≡ is_later (contract c.now) }
{
    matches!(c, Contr::After { .. })
}

/// Whether a contract is simple, and no part of it reduces.
pub fn is_reduced_simple(c: &Contr) -> bool
    ensures { result ≡ true → IsReducedSimple (contract c.now) }
{
    match c {
        Contr::Pay { .. } => true,
        Contr::Both { left, right } => is_reduced_simple(left) && is_reduced_simple(right),
        Contr::Scale { factor, body } => is_factor(factor) && is_reduced_simple(body),
        Contr::After { days, body } => {
            days.number() > 0 && !is_later(body) && is_reduced_simple(body)
        }
        Contr::Zero | Contr::Let { .. } | Contr::Within { .. } => false,
    }
}

/// What is left of two parts.
pub fn both_left(alloc: Global, left: Contr, right: Contr) -> Result<Contr, NoMemory>
    ensures { IfOk result (λ r. contract r ≡ model.both_left (contract left) (contract right)) }
{
    if let Contr::Zero = left {
        return Ok(right);
    }
    if let Contr::Zero = right {
        return Ok(left);
    }
    let left = Box::new(alloc, left)?;
    let right = Box::new(alloc, right)?;
    Ok(Contr::Both { left, right })
}

// What is left of a body with a factor.
fn scale_left(alloc: Global, factor: Expr, body: Contr) -> Result<Contr, NoMemory>
    ensures { IfOk result (λ r.
        contract r ≡ model.scale_left (expression factor) (contract body)) }
{
    if let Contr::Zero = body {
        return Ok(Contr::Zero);
    }
    let body = Box::new(alloc, body)?;
    Ok(Contr::Scale { factor, body })
}

/// What waits for some days more.
pub fn delayed(days: u32, body: Box<Contr>) -> Contr
    ensures { contract result ≡ model.delayed days (contract body.value) }
{
    if days == 0 {
        Box::into_inner(body)
    } else {
        Contr::After {
            days: Days::Num { days },
            body,
        }
    }
}

/// What is left of a reduced simple contract after `last + 1` days.
#[cycle(passing)]
pub fn left_of_simple(alloc: Global, c: Contr, last: u32) -> Result<Contr, NoMemory>
    requires { IsReducedSimple (contract c) }
    ensures { IfOk result (λ r. IsLeftAnywhere (contract c) last (contract r)) }
{
    match c {
        Contr::Both { left, right } => left_of_both(alloc, left, right, last),
        Contr::Scale { factor, body } => left_of_scaled(alloc, factor, body, last),
        Contr::After { days, body } => left_of_later(alloc, days.number(), body, last),
        Contr::Zero | Contr::Pay { .. } | Contr::Let { .. } | Contr::Within { .. } => {
            Ok(Contr::Zero)
        }
    }
}

// The same of two contracts together.
#[cycle(passing)]
fn left_of_both(
    alloc: Global,
    left: Box<Contr>,
    right: Box<Contr>,
    last: u32,
) -> Result<Contr, NoMemory>
    requires left { IsReducedSimple (contract left.value) }
    requires right { IsReducedSimple (contract right.value) }
    ensures { IfOk result (λ r.
        IsLeftAnywhere (Both (contract left.value) (contract right.value)) last (contract r)) }
{
    let left = left_of_simple(alloc, Box::into_inner(left), last)?;
    let right = left_of_simple(alloc, Box::into_inner(right), last)?;
    both_left(alloc, left, right)
}

// The same of a contract under a factor.
#[cycle(passing)]
fn left_of_scaled(
    alloc: Global,
    factor: Expr,
    body: Box<Contr>,
    last: u32,
) -> Result<Contr, NoMemory>
    requires factor { is_factor (expression factor) ≡ true }
    requires body { IsReducedSimple (contract body.value) }
    ensures { IfOk result (λ r.
        IsLeftAnywhere (Scale (expression factor) (contract body.value)) last (contract r)) }
{
    let body = left_of_simple(alloc, Box::into_inner(body), last)?;
    scale_left(alloc, factor, body)
}

// The same of a contract that waits.
#[cycle(passing)]
fn left_of_later(alloc: Global, days: u32, body: Box<Contr>, last: u32) -> Result<Contr, NoMemory>
    requires { IsReducedSimple (contract body.value) }
    ensures { IfOk result (λ r.
        IsLeftAnywhere (After (Count days) (contract body.value)) last (contract r)) }
{
    if days <= last {
        left_of_simple(alloc, Box::into_inner(body), last - days)
    } else {
        Ok(delayed(days - last - 1, body))
    }
}
