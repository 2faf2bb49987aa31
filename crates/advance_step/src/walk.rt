//! The walk that carries a contract with shared parts over any number of days: each node that
//! stands up to the last of them is met once, and what stands later is handed on as it is.

ghost use Rattle.std.specs.Prelude.{◌≡◌, IfOk, IfErr};
ghost use Rattle.term_model.specs.Terms.{expression, Zero};
ghost use Rattle.term_core.specs.SharedTerms.{shared, StoresOffsets};
ghost use Rattle.flow_eval.specs.Faults.{lacks_memory};
ghost use Rattle.rewriting.specs.RebuildingContracts.{after_over, both_over, let_over, scale_over};
ghost use Rattle.rewriting.specs.RebuildingContracts.{within_over};
ghost use Rattle.advance_step.specs.CarryingWalk.{AnswersRest, CanMove, MayBind, MayCarry};
ghost use Rattle.advance_step.specs.CarryingWalk.{MayCarryUnder, MayTest};

use crate::parts::{both_left, delayed, let_left, nothing, scale_left, still_waiting};
use crate::questions::{entry_for, first_day};
use crate::span::Span;
use expr_eval::Scratch;
use fixing_files::Known;
use flow_eval::FlowErr;
use std::alloc::Global;
use std::rc::Rc;
use term_core::SharedContr;
use term_model::Expr;

// What is left of a payment, and of nothing.
fn nothing_left(alloc: Global) -> Result<Rc<SharedContr>, FlowErr>
    ensures tree { IfOk result (λ r. shared r.value ≡ Zero) }
    ensures offsets { IfOk result (λ r. StoresOffsets r.value) }
    ensures memory { IfErr result (λ e. e ≡ lacks_memory) }
{
    Ok(nothing(alloc)?)
}

/// What is left of a contract after the days that are gone by for it.
#[cycle(carrying)]
pub fn carry_in(
    alloc: Global,
    known: &Known,
    scratch: &mut Scratch,
    span: Span,
    s: &SharedContr,
) -> Result<Rc<SharedContr>, FlowErr>
    requires ready { MayCarry known.now s.now scratch.old }
    ensures answer { AnswersRest known.now (shared s.now) scratch.old span result }
    ensures same { scratch.new ≡ scratch.old }
{
    match s {
        SharedContr::Zero => nothing_left(alloc),
        SharedContr::Pay { .. } => nothing_left(alloc),
        SharedContr::Both { left, right } => carry_both(alloc, known, scratch, span, left, right),
        SharedContr::Scale {
            factor,
            moved,
            body,
        } => carry_scaled(alloc, known, scratch, span, factor, *moved, body),
        SharedContr::After { days, body } => {
            carry_after(alloc, known, scratch, span, *days, body)
        }
        SharedContr::Let { bound, moved, body } => {
            carry_bound(alloc, known, scratch, span, bound, *moved, body)
        }
        SharedContr::Within {
            test,
            days,
            hit,
            miss,
        } => carry_within(alloc, known, scratch, span, test, *days, hit, miss),
    }
}

// What is left of two parts.
#[cycle(carrying)]
fn carry_both(
    alloc: Global,
    known: &Known,
    scratch: &mut Scratch,
    span: Span,
    left: &Rc<SharedContr>,
    right: &Rc<SharedContr>,
) -> Result<Rc<SharedContr>, FlowErr>
    requires left { MayCarry known.now left.now.value scratch.old }
    requires right { MayCarry known.now right.now.value scratch.old }
    ensures answer { AnswersRest known.now (both_over left.now right.now) scratch.old span result }
    ensures same { scratch.new ≡ scratch.old }
{
    let left = carry_in(alloc, known, scratch, span, left)?;
    let right = carry_in(alloc, known, scratch, span, right)?;
    Ok(both_left(alloc, left, right)?)
}

// What is left of a contract times a factor.
#[cycle(carrying)]
fn carry_scaled(
    alloc: Global,
    known: &Known,
    scratch: &mut Scratch,
    span: Span,
    factor: &Rc<Expr>,
    moved: i32,
    body: &Rc<SharedContr>,
) -> Result<Rc<SharedContr>, FlowErr>
    requires factor { CanMove moved (expression factor.now.value) }
    requires body { MayCarry known.now body.now.value scratch.old }
    ensures answer { AnswersRest known.now (scale_over moved factor.now body.now)
        scratch.old span result }
    ensures same { scratch.new ≡ scratch.old }
{
    let body = carry_in(alloc, known, scratch, span, body)?;
    Ok(scale_left(alloc, factor, moved, span.last, body)?)
}

// What is left of a contract that waits.
#[cycle(carrying)]
fn carry_after(
    alloc: Global,
    known: &Known,
    scratch: &mut Scratch,
    span: Span,
    days: u32,
    body: &Rc<SharedContr>,
) -> Result<Rc<SharedContr>, FlowErr>
    requires body { MayCarry known.now body.now.value scratch.old }
    ensures answer { AnswersRest known.now (after_over days body.now) scratch.old span result }
    ensures same { scratch.new ≡ scratch.old }
{
    if days <= span.last {
        carry_in(alloc, known, scratch, span.after(days), body)
    } else {
        Ok(delayed(alloc, days - span.last - 1, body)?)
    }
}

// What is left of a contract in which a name is bound.
#[cycle(carrying)]
fn carry_bound(
    alloc: Global,
    known: &Known,
    scratch: &mut Scratch,
    span: Span,
    bound: &Rc<Expr>,
    moved: i32,
    body: &Rc<SharedContr>,
) -> Result<Rc<SharedContr>, FlowErr>
    requires bound { MayBind known.now moved bound.now scratch.old }
    requires body { MayCarryUnder known.now bound.now body.now.value scratch.old }
    ensures answer { AnswersRest known.now (let_over moved bound.now body.now)
        scratch.old span result }
    ensures same { scratch.new ≡ scratch.old }
{
    let entry = entry_for(known, bound, moved, scratch, span);
    scratch.enter(entry.kind, entry.held);
    let carried = carry_in(alloc, known, scratch, span, body);
    scratch.leave();
    Ok(let_left(alloc, bound, moved, span.last, carried?)?)
}

// What is left of a contract that waits for a test.
#[cycle(carrying)]
fn carry_within(
    alloc: Global,
    known: &Known,
    scratch: &mut Scratch,
    span: Span,
    test: &Rc<Expr>,
    days: u32,
    hit: &Rc<SharedContr>,
    miss: &Rc<SharedContr>,
) -> Result<Rc<SharedContr>, FlowErr>
    requires test { MayTest known.now test.now scratch.old }
    requires hit { MayCarry known.now hit.now.value scratch.old }
    requires miss { MayCarry known.now miss.now.value scratch.old }
    ensures answer { AnswersRest known.now (within_over test.now days hit.now miss.now)
        scratch.old span result }
    ensures same { scratch.new ≡ scratch.old }
{
    match first_day(known, test, &*scratch, span, days)? {
        Some(first) => carry_in(alloc, known, scratch, span.after(first), hit),
        None if days <= span.last => carry_in(alloc, known, scratch, span.after(days), miss),
        None => Ok(still_waiting(alloc, test, days - span.last - 1, hit, miss)?),
    }
}
