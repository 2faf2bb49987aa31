//! Advancing a contract: what it pays on the days gone by, and what is left of it.

ghost use Rattle.std.specs.Prelude.{◌≤◌, ◌+◌, pos};
ghost use Rattle.term_model.specs.Declarations.{declarations};
ghost use Rattle.term_model.specs.Limits.{last_start};
ghost use Rattle.term_model.specs.Terms.{contract};
ghost use Rattle.term_model.specs.Acceptance.{IsAccepted};
ghost use Rattle.term_model.specs.Environments.{IsAdmitted};
ghost use Rattle.term_model.specs.WellFormed.{IsClosed, HasOnlyNumbers};
ghost use Rattle.advance_step.specs.Advancing.{Advances};

use crate::residual::{residual_of, rest_of};
use crate::span::DaysGone;
use fixing_files::Fixings;
use flow_eval::{FlowErr, FlowTable, flows};
use std::alloc::Global;
use term_model::{Contr, Decls};

/// What a contract pays on the days gone by, and what is left of it.
#[derive(Drop)]
pub struct Advanced {
    pub due: FlowTable,
    pub rest: Contr,
}

/// What an accepted contract that stands on the start of its portfolio pays on the next `days`
/// days, and what is left of it then: a contract without redexes that stands on the day behind
/// them, up to day 1,000,000, and carries the rest. It lacks a place exactly where the contract
/// reads one on the days gone by that is not fixed, and then answers the first. After the reduction
/// of contracts by Bahr, Berthold and Elsman; any number of days is gone through in one walk.
pub fn advance(
    alloc: Global,
    decls: &Decls,
    c: &Contr,
    fixings: &Fixings,
    days: u32,
) -> Result<Advanced, FlowErr>
    requires accepted { IsAccepted (declarations decls.now) (contract c.now) }
    requires closed { IsClosed (declarations decls.now) (contract c.now) }
    requires numbers { HasOnlyNumbers (contract c.now) }
    requires admitted { IsAdmitted (declarations decls.now) fixings.now }
    requires last { decls.now.start + days ≤ last_start }
    ensures { Advances (declarations decls.now) (contract c.now) fixings.now
        (pos decls.now.start) days result }
{
    let from = decls.start as i64;
    let gone = DaysGone { from, days };
    let due = flows(alloc, decls, c, fixings, gone.last_day())?;
    let rest = residual_of(alloc, decls, c, fixings, gone)?;
    Ok(Advanced { due, rest })
}

/// What `advance` answers of a contract that is handed over: what is left may be made of its parts,
/// and most contracts of a book are neither copied nor reduced.
pub fn into_advanced(
    alloc: Global,
    decls: &Decls,
    c: Contr,
    fixings: &Fixings,
    days: u32,
) -> Result<Advanced, FlowErr>
    requires accepted { IsAccepted (declarations decls.now) (contract c) }
    requires closed { IsClosed (declarations decls.now) (contract c) }
    requires numbers { HasOnlyNumbers (contract c) }
    requires admitted { IsAdmitted (declarations decls.now) fixings.now }
    requires last { decls.now.start + days ≤ last_start }
    ensures { Advances (declarations decls.now) (contract c) fixings.now
        (pos decls.now.start) days result }
{
    let from = decls.start as i64;
    let gone = DaysGone { from, days };
    let due = flows(alloc, decls, &c, fixings, gone.last_day())?;
    let rest = rest_of(alloc, decls, c, fixings, gone)?;
    Ok(Advanced { due, rest })
}
