//! The flow tables of contracts.

ghost use Rattle.std.specs.Prelude.{◌≤ℤ◌, pos};
ghost use Rattle.term_model.specs.Limits.{last_start};
ghost use Rattle.term_model.specs.Declarations.{declarations};
ghost use Rattle.term_model.specs.Terms.{contract};
ghost use Rattle.term_model.specs.Environments.{IsAdmitted};
ghost use Rattle.term_model.specs.Acceptance.{IsAccepted};
ghost use Rattle.flow_eval.specs.FlowAnswers.{AreFlows};
ghost use Rattle.flow_eval.specs.WalkAnswers.{ArePaymentsOf};

use crate::faults::FlowErr;
use crate::flow_table::FlowTable;
use crate::names::names_in;
use crate::netting::netted;
use crate::payments::Payment;
use crate::walk::{Basis, Standing, gather};
use expr_eval::Scratch;
use fixing_files::Fixings;
use std::alloc::Global;
use term_model::{Contr, Decls};

/// The last day that a contract on a day can reach.
pub const LAST_DAY: u32 = 1_100_000;

// The payments up to the last day of a contract that stands on a day.
fn payments_on(alloc: Global, basis: &Basis, c: &Contr, frame: i64) -> Result<Vec<Payment>, FlowErr>
    requires accepted { IsAccepted (declarations basis.now.decls.now) (contract c.now) }
    requires admitted { IsAdmitted (declarations basis.now.decls.now) basis.now.fixings.now }
    requires first { pos 0 ≤ℤ frame }
    requires last { frame ≤ℤ pos last_start }
    ensures { ArePaymentsOf basis.now (contract c.now) frame result }
{
    let mut payments = Vec::new(alloc);
    let mut scratch = Scratch::with_room(alloc, names_in(c) as usize)?;
    let here = Standing {
        day: frame,
        decimals: basis.decls.amounts,
    };
    gather(basis, &mut payments, &mut scratch, here, c)?;
    Ok(payments)
}

/// The flow table of an accepted contract that stands on a day from 0 to 1,000,000, from that day
/// up to `until`: a row for each day, asset and two parties between whom something is paid, in
/// units of the portfolio's least decimal. It is the same whatever else will be observed. It lacks
/// a place exactly where the contract reads one on these days that is not fixed, and then answers
/// the first. An amount is at most 10^36.
pub fn flows_on(
    alloc: Global,
    decls: &Decls,
    c: &Contr,
    fixings: &Fixings,
    frame: i64,
    until: i64,
) -> Result<FlowTable, FlowErr>
    requires accepted { IsAccepted (declarations decls.now) (contract c.now) }
    requires admitted { IsAdmitted (declarations decls.now) fixings.now }
    requires first { pos 0 ≤ℤ frame }
    requires last { frame ≤ℤ pos last_start }
    ensures { AreFlows (declarations decls.now) (contract c.now) fixings.now frame until result }
{
    let basis = Basis {
        decls,
        fixings,
        until,
    };
    let payments = payments_on(alloc, &basis, c, frame)?;
    Ok(netted(alloc, payments)?)
}

/// The flow table of an accepted contract that stands on the start of its portfolio, from that day
/// up to `until`, as `flows_on` has it.
pub fn flows(
    alloc: Global,
    decls: &Decls,
    c: &Contr,
    fixings: &Fixings,
    until: i64,
) -> Result<FlowTable, FlowErr>
    requires accepted { IsAccepted (declarations decls.now) (contract c.now) }
    requires admitted { IsAdmitted (declarations decls.now) fixings.now }
    ensures { AreFlows (declarations decls.now) (contract c.now) fixings.now
        (pos decls.now.start) until result }
{
    let start = decls.start as i64;
    flows_on(alloc, decls, c, fixings, start, until)
}
