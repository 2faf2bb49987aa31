//! What is left of parts, put together. A part that is not touched is handed on.

ghost use Rattle.std.specs.Prelude.{◌≡◌, ◌≤◌, ◌≤ℤ◌, ◌*◌, ◌-ℤ◌, pos, negsuc, IfOk};
ghost use Rattle.term_model.specs.Limits.{last_start};
ghost use Rattle.term_model.specs.Terms.{expression, Zero, Expression};
ghost use Rattle.term_model.specs.Shifts.{shifted};
ghost use Rattle.term_core.specs.SharedTerms.{shared, HasOffsets, StoresOffsets};
ghost use Rattle.rewriting.specs.RebuildingContracts.{within_over};
ghost use Rattle.simplify.specs.TurningContracts.{is_nothing};
ghost use Rattle.advance_step.specs.WhatIsLeft as model;
ghost use Rattle.advance_step.specs.CarryingWalk.{CanMove};

use decimal::NoMemory;
use simplify::is_nothing;
use std::alloc::Global;
use std::rc::Rc;
use term_core::SharedContr;
use term_model::Expr;

/// What is left of two parts.
pub fn both_left(
    alloc: Global,
    left: Rc<SharedContr>,
    right: Rc<SharedContr>,
) -> Result<Rc<SharedContr>, NoMemory>
    requires left { StoresOffsets left.value }
    requires right { StoresOffsets right.value }
    ensures tree { IfOk result (λ r.
        shared r.value ≡ model.both_left (shared left.value) (shared right.value)) }
    ensures offsets { IfOk result (λ r. StoresOffsets r.value) }
{
    if is_nothing(&left) {
        Ok(right)
    } else if is_nothing(&right) {
        Ok(left)
    } else {
        Ok(Rc::new(alloc, SharedContr::Both { left, right })?)
    }
}

// A number of days less.
fn back(moved: i32, days: u32) -> i32
    requires low { negsuc 1_999_999 ≤ℤ moved }
    requires few { days ≤ 2_000_001 }
    ensures { result ≡ moved -ℤ pos days }
{
    moved - days as i32
}

/// By how many days an expression is moved that is read `last + 1` days sooner. Where it reads
/// nothing, every number of days stands for the same.
pub fn sooner(moved: i32, last: u32) -> i32
    requires { last ≤ 2 * last_start }
    ensures { (e : Expression) → CanMove moved e
        → shifted result e ≡ shifted (negsuc last) (shifted moved e) }
{
    if moved < -2_000_000 {
        moved
    } else {
        back(moved, last + 1)
    }
}

/// What is left of a body with a factor.
pub fn scale_left(
    alloc: Global,
    factor: &Rc<Expr>,
    moved: i32,
    last: u32,
    body: Rc<SharedContr>,
) -> Result<Rc<SharedContr>, NoMemory>
    requires last { last ≤ 2 * last_start }
    requires factor { CanMove moved (expression factor.now.value) }
    requires body { StoresOffsets body.value }
    ensures tree { IfOk result (λ r.
        shared r.value ≡ model.scale_left
        (shifted (negsuc last) (shifted moved (expression factor.now.value)))
        (shared body.value)) }
    ensures offsets { IfOk result (λ r. StoresOffsets r.value) }
{
    if is_nothing(&body) {
        return Ok(body);
    }
    let moved = sooner(moved, last);
    let factor = factor.clone()?;
    Ok(Rc::new(
        alloc,
        SharedContr::Scale {
            factor,
            moved,
            body,
        },
    )?)
}

/// What is left of a body under a name.
pub fn let_left(
    alloc: Global,
    bound: &Rc<Expr>,
    moved: i32,
    last: u32,
    body: Rc<SharedContr>,
) -> Result<Rc<SharedContr>, NoMemory>
    requires last { last ≤ 2 * last_start }
    requires bound { CanMove moved (expression bound.now.value) }
    requires body { StoresOffsets body.value }
    ensures tree { IfOk result (λ r.
        shared r.value ≡ model.let_left
        (shifted (negsuc last) (shifted moved (expression bound.now.value)))
        (shared body.value)) }
    ensures offsets { IfOk result (λ r. StoresOffsets r.value) }
{
    if is_nothing(&body) {
        return Ok(body);
    }
    let moved = sooner(moved, last);
    let bound = bound.clone()?;
    Ok(Rc::new(alloc, SharedContr::Let { bound, moved, body })?)
}

/// A part that is not touched, some days later.
pub fn delayed(
    alloc: Global,
    days: u32,
    body: &Rc<SharedContr>,
) -> Result<Rc<SharedContr>, NoMemory>
    requires { StoresOffsets body.now.value }
    ensures tree { IfOk result (λ r. shared r.value ≡ model.delayed days (shared body.now.value)) }
    ensures offsets { IfOk result (λ r. StoresOffsets r.value) }
{
    let body = body.clone()?;
    if days == 0 {
        return Ok(body);
    }
    Ok(Rc::new(alloc, SharedContr::After { days, body })?)
}

/// Nothing.
pub fn nothing(alloc: Global) -> Result<Rc<SharedContr>, NoMemory>
    ensures tree { IfOk result (λ r. shared r.value ≡ Zero) }
    ensures offsets { IfOk result (λ r. StoresOffsets r.value) }
{
    Ok(Rc::new(alloc, SharedContr::Zero)?)
}

/// A test that goes on with fewer days, over the same parts.
pub fn still_waiting(
    alloc: Global,
    test: &Rc<Expr>,
    days: u32,
    hit: &Rc<SharedContr>,
    miss: &Rc<SharedContr>,
) -> Result<Rc<SharedContr>, NoMemory>
    requires test { HasOffsets (expression test.now.value) }
    requires hit { StoresOffsets hit.now.value }
    requires miss { StoresOffsets miss.now.value }
    ensures tree { IfOk result (λ r. shared r.value ≡ within_over test.now days hit.now miss.now) }
    ensures offsets { IfOk result (λ r. StoresOffsets r.value) }
{
    let test = test.clone()?;
    let hit = hit.clone()?;
    let miss = miss.clone()?;
    Ok(Rc::new(
        alloc,
        SharedContr::Within {
            test,
            days,
            hit,
            miss,
        },
    )?)
}
