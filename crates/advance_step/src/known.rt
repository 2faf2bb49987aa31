//! What is left of a contract whose flows are known. Each place that it reads on the days gone by
//! is fixed, so no walk over these days lacks one.

ghost use Rattle.std.specs.Prelude.{◌+◌, ◌+ℤ◌, pos};
ghost use Rattle.term_model.specs.Declarations.{declarations};
ghost use Rattle.term_model.specs.Environments.{IsAdmitted};
ghost use Rattle.term_model.specs.Acceptance.{IsAccepted};
ghost use Rattle.term_core.specs.SharedTerms.{shared, StoresOffsets};
ghost use Rattle.advance_step.specs.Residual.{AnswersLeftAfter, ReadsAreFixed};

use crate::carried::carry_over;
use crate::span::Span;
use fixing_files::{Fixings, Known};
use flow_eval::FlowErr;
use std::alloc::Global;
use std::rc::Rc;
use term_core::SharedContr;
use term_model::Decls;

/// What is left of a contract after the days of a span, on which each read is fixed.
pub fn carry_known(
    alloc: Global,
    decls: &Decls,
    s: &Rc<SharedContr>,
    fixings: &Fixings,
    span: Span,
) -> Result<Rc<SharedContr>, FlowErr>
    requires accepted { IsAccepted (declarations decls.now) (shared s.now.value) }
    requires offsets { StoresOffsets s.now.value }
    requires admitted { IsAdmitted (declarations decls.now) fixings.now }
    requires known { ReadsAreFixed (declarations decls.now) (shared s.now.value) fixings.now
        span.day (span.day +ℤ pos span.last) }
    ensures { AnswersLeftAfter (declarations decls.now) fixings.now
        span.day (span.last + 1) (shared s.now.value) result }
{
    carry_over(alloc, &Known { decls, fixings }, s, span)
}
