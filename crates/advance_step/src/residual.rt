//! Residuals of contracts whose flows are known.

ghost use Rattle.std.specs.Prelude.{◌≡◌, ◌≤◌, IfOk};
ghost use Rattle.term_model.specs.Declarations.{declarations};
ghost use Rattle.term_model.specs.Terms.{contract};
ghost use Rattle.term_model.specs.Environments.{IsAdmitted};
ghost use Rattle.term_model.specs.Acceptance.{IsAccepted};
ghost use Rattle.term_core.specs.SharedTerms.{shared, StoresOffsets};
ghost use Rattle.term_model.specs.WellFormed.{IsClosed, HasOnlyNumbers};
ghost use Rattle.advance_step.specs.Advancing.{AnswersReducedRest, AnswersResidual, day_before};
ghost use Rattle.advance_step.specs.Residual.{AnswersLeftAfter, ReadsAreFixed};

use crate::gone::is_gone;
use crate::handed_on::{handed_on, is_handed_on};
use crate::known::carry_known;
use crate::reducing::reduce;
use crate::simple_contracts::{is_reduced_simple, left_of_simple};
use crate::span::DaysGone;
use decimal::NoMemory;
use expr_eval::Scratch;
use fixing_files::{Fixings, Known};
use flow_eval::FlowErr;
use std::alloc::Global;
use std::rc::Rc;
use term_core::{SharedContr, share, unshare};
use term_model::{Contr, Decls};

// The contract itself, shared.
fn as_it_is(s: &Rc<SharedContr>) -> Result<Rc<SharedContr>, NoMemory>
    ensures { IfOk result (λ r. r.value ≡ s.now.value) }
{
    Ok(s.clone()?)
}

// What is left of a contract after one day or more, whose reads are fixed.
fn carried_after(
    alloc: Global,
    decls: &Decls,
    s: &Rc<SharedContr>,
    fixings: &Fixings,
    gone: DaysGone,
) -> Result<Rc<SharedContr>, FlowErr>
    requires accepted { IsAccepted (declarations decls.now) (shared s.now.value) }
    requires offsets { StoresOffsets s.now.value }
    requires admitted { IsAdmitted (declarations decls.now) fixings.now }
    requires known { ReadsAreFixed (declarations decls.now) (shared s.now.value) fixings.now
        gone.from (day_before gone.from gone.days) }
    requires some { 1 ≤ gone.days }
    ensures { AnswersLeftAfter (declarations decls.now) fixings.now
        gone.from gone.days (shared s.now.value) result }
{
    carry_known(alloc, decls, s, fixings, gone.span())
}

// What is left of a contract after some days whose reads are fixed.
fn left_after(
    alloc: Global,
    decls: &Decls,
    s: &Rc<SharedContr>,
    fixings: &Fixings,
    gone: DaysGone,
) -> Result<Rc<SharedContr>, FlowErr>
    requires accepted { IsAccepted (declarations decls.now) (shared s.now.value) }
    requires offsets { StoresOffsets s.now.value }
    requires admitted { IsAdmitted (declarations decls.now) fixings.now }
    requires known { ReadsAreFixed (declarations decls.now) (shared s.now.value) fixings.now
        gone.from (day_before gone.from gone.days) }
    ensures { AnswersLeftAfter (declarations decls.now) fixings.now
        gone.from gone.days (shared s.now.value) result }
{
    if gone.days == 0 {
        Ok(as_it_is(s)?)
    } else {
        carried_after(alloc, decls, s, fixings, gone)
    }
}

// What is left of a contract after some days whose reads are fixed, and reduced.
fn reduced_after(
    alloc: Global,
    decls: &Decls,
    s: &Rc<SharedContr>,
    fixings: &Fixings,
    gone: DaysGone,
) -> Result<Rc<SharedContr>, FlowErr>
    requires accepted { IsAccepted (declarations decls.now) (shared s.now.value) }
    requires closed { IsClosed (declarations decls.now) (shared s.now.value) }
    requires offsets { StoresOffsets s.now.value }
    requires admitted { IsAdmitted (declarations decls.now) fixings.now }
    requires known { ReadsAreFixed (declarations decls.now) (shared s.now.value) fixings.now
        gone.from (day_before gone.from gone.days) }
    ensures { AnswersReducedRest (declarations decls.now) fixings.now
        gone.from gone.days (shared s.now.value) result }
{
    let left = left_after(alloc, decls, s, fixings, gone)?;
    Ok(reduce(alloc, decls, &left, fixings, gone.new_day())?)
}

/// The residual of a contract after some days whose reads are fixed. Of one that lies behind it is
/// nothing, and takes no memory.
pub fn residual_of(
    alloc: Global,
    decls: &Decls,
    c: &Contr,
    fixings: &Fixings,
    gone: DaysGone,
) -> Result<Contr, FlowErr>
    requires accepted { IsAccepted (declarations decls.now) (contract c.now) }
    requires closed { IsClosed (declarations decls.now) (contract c.now) }
    requires numbers { HasOnlyNumbers (contract c.now) }
    requires admitted { IsAdmitted (declarations decls.now) fixings.now }
    requires known { ReadsAreFixed (declarations decls.now) (contract c.now) fixings.now
        gone.from (day_before gone.from gone.days) }
    ensures { AnswersResidual (declarations decls.now) fixings.now
        gone.from gone.days (contract c.now) result }
{
    if is_gone(c, gone.days) {
        return Ok(Contr::Zero);
    }
    let s = share(alloc, c)?;
    let rest = reduced_after(alloc, decls, &s, fixings, gone)?;
    Ok(unshare(alloc, &rest)?)
}

/// The residual of a contract that is handed over. That of a simple one is made of its parts, and
/// so is that of one of which all that is left is handed on.
pub fn rest_of(
    alloc: Global,
    decls: &Decls,
    c: Contr,
    fixings: &Fixings,
    gone: DaysGone,
) -> Result<Contr, FlowErr>
    requires accepted { IsAccepted (declarations decls.now) (contract c) }
    requires closed { IsClosed (declarations decls.now) (contract c) }
    requires numbers { HasOnlyNumbers (contract c) }
    requires admitted { IsAdmitted (declarations decls.now) fixings.now }
    requires known { ReadsAreFixed (declarations decls.now) (contract c) fixings.now
        gone.from (day_before gone.from gone.days) }
    ensures { AnswersResidual (declarations decls.now) fixings.now
        gone.from gone.days (contract c) result }
{
    if gone.days > 0 {
        if is_reduced_simple(&c) {
            return Ok(left_of_simple(alloc, c, gone.days - 1)?);
        }
        let scratch = Scratch::with_room(alloc, 0)?;
        let span = gone.span();
        // (of what is gone nothing is handed on, so its tests are not tried)
        if !is_gone(&c, gone.days) && is_handed_on(&Known { decls, fixings }, &scratch, span, &c) {
            return Ok(handed_on(alloc, c, span.last)?);
        }
    }
    residual_of(alloc, decls, &c, fixings, gone)
}
