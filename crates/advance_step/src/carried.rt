//! What is left of a contract after some days.

ghost use Rattle.std.specs.Prelude.{◌≤◌};
ghost use Rattle.term_model.specs.Declarations.{declarations};
ghost use Rattle.term_model.specs.Environments.{IsAdmitted};
ghost use Rattle.term_model.specs.Acceptance.{IsAccepted};
ghost use Rattle.term_model.specs.Limits.{last_start};
ghost use Rattle.term_core.specs.SharedTerms.{shared, StoresOffsets};
ghost use Rattle.advance_step.specs.CarryingWalk.{AnswersLeft};
ghost use Rattle.advance_step.specs.Residual.{MayStandOn};

use crate::parts::{delayed, nothing};
use crate::span::Span;
use crate::walk::carry_in;
use expr_eval::Scratch;
use fixing_files::{Fixings, Known};
use flow_eval::FlowErr;
use std::alloc::Global;
use std::rc::Rc;
use term_core::SharedContr;
use term_model::{Decls, MOST_HEIGHT};

// What is left of a contract, by a walk.
fn carry_by_walk(
    alloc: Global,
    known: &Known,
    s: &Rc<SharedContr>,
    span: Span,
) -> Result<Rc<SharedContr>, FlowErr>
    requires accepted { IsAccepted known.now.decls (shared s.now.value) }
    requires offsets { StoresOffsets s.now.value }
    ensures { AnswersLeft known.now.decls known.now.fixings (shared s.now.value)
        span.day span.last result }
{
    let mut scratch = Scratch::for_height(alloc, MOST_HEIGHT)?;
    carry_in(alloc, known, &mut scratch, span, s)
}

/// What is left of an accepted contract after the days of a span: that of `carry`.
pub fn carry_over(
    alloc: Global,
    known: &Known,
    s: &Rc<SharedContr>,
    span: Span,
) -> Result<Rc<SharedContr>, FlowErr>
    requires accepted { IsAccepted known.now.decls (shared s.now.value) }
    requires offsets { StoresOffsets s.now.value }
    ensures { AnswersLeft known.now.decls known.now.fixings (shared s.now.value)
        span.day span.last result }
{
    match &**s {
        SharedContr::Zero | SharedContr::Pay { .. } => Ok(nothing(alloc)?),
        SharedContr::After { days, body } if span.last < *days => {
            Ok(delayed(alloc, *days - span.last - 1, body)?)
        }
        _ => carry_by_walk(alloc, known, s, span),
    }
}

/// What is left of an accepted contract that stands on a day from 0 to 1,000,000, after `last + 1`
/// days: the same in every environment that extends the fixings. Parts that stand later are shared
/// with the contract. It lacks a place only where the contract reads one on the days gone by that
/// is not fixed, and then names such a one. The contract is walked once, whatever the number of
/// days, and not at all where it waits for a later day.
pub fn carry(
    alloc: Global,
    decls: &Decls,
    s: &Rc<SharedContr>,
    fixings: &Fixings,
    day: i64,
    last: u32,
) -> Result<Rc<SharedContr>, FlowErr>
    requires accepted { IsAccepted (declarations decls.now) (shared s.now.value) }
    requires offsets { StoresOffsets s.now.value }
    requires admitted { IsAdmitted (declarations decls.now) fixings.now }
    requires day { MayStandOn day }
    requires days { last ≤ last_start }
    ensures { AnswersLeft (declarations decls.now) fixings.now (shared s.now.value)
        day last result }
{
    let known = Known { decls, fixings };
    carry_over(alloc, &known, s, Span { day, last })
}
