//! A step from a day to the next.

ghost use Rattle.term_model.specs.Declarations.{declarations};
ghost use Rattle.term_model.specs.Terms.{contract};
ghost use Rattle.term_model.specs.Environments.{IsAdmitted};
ghost use Rattle.term_model.specs.Acceptance.{IsAccepted};
ghost use Rattle.term_core.specs.SharedTerms.{shared, StoresOffsets};
ghost use Rattle.term_model.specs.WellFormed.{IsClosed, HasOnlyNumbers};
ghost use Rattle.advance_step.specs.Advancing.{AnswersSharedStep, AnswersStep};
ghost use Rattle.advance_step.specs.Residual.{MayStandOn};

use crate::advancing::Advanced;
use crate::known::carry_known;
use crate::span::Span;
use fixing_files::Fixings;
use flow_eval::{FlowErr, FlowTable, flows_shared};
use std::alloc::Global;
use std::rc::Rc;
use term_core::{SharedContr, share, unshare};
use term_model::{Contr, Decls};

/// What a contract pays on a day, and what is left of it on the next, with shared parts.
#[derive(Drop)]
pub struct SharedAdvanced {
    pub due: FlowTable,
    pub rest: Rc<SharedContr>,
}

/// What an accepted contract that stands on a day from 0 to 1,000,000 pays on that day, and the
/// contract of the next day. It lacks a place exactly where the contract reads one on the day that
/// is not fixed, and then answers the first. Parts that stand later are shared with the contract.
/// After the reduction of contracts by Bahr, Berthold and Elsman.
pub fn step_shared(
    alloc: Global,
    decls: &Decls,
    s: &Rc<SharedContr>,
    fixings: &Fixings,
    day: i64,
) -> Result<SharedAdvanced, FlowErr>
    requires accepted { IsAccepted (declarations decls.now) (shared s.now.value) }
    requires offsets { StoresOffsets s.now.value }
    requires admitted { IsAdmitted (declarations decls.now) fixings.now }
    requires day { MayStandOn day }
    ensures { AnswersSharedStep (declarations decls.now) fixings.now
        day (shared s.now.value) result }
{
    let due = flows_shared(alloc, decls, s, fixings, day, day)?;
    let rest = carry_known(alloc, decls, s, fixings, Span { day, last: 0 })?;
    Ok(SharedAdvanced { due, rest })
}

/// What an accepted contract that stands on a day from 0 to 1,000,000 pays on that day, and the
/// contract of the next day, as `step_shared` has it.
pub fn step(
    alloc: Global,
    decls: &Decls,
    c: &Contr,
    fixings: &Fixings,
    day: i64,
) -> Result<Advanced, FlowErr>
    requires accepted { IsAccepted (declarations decls.now) (contract c.now) }
    requires closed { IsClosed (declarations decls.now) (contract c.now) }
    requires numbers { HasOnlyNumbers (contract c.now) }
    requires admitted { IsAdmitted (declarations decls.now) fixings.now }
    requires day { MayStandOn day }
    ensures { AnswersStep (declarations decls.now) fixings.now day (contract c.now) result }
{
    let s = share(alloc, c)?;
    let SharedAdvanced { due, rest } = step_shared(alloc, decls, &s, fixings, day)?;
    let rest = unshare(alloc, &rest)?;
    Ok(Advanced { due, rest })
}
