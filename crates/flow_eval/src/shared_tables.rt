//! The flow tables of contracts with shared parts.

ghost use Rattle.std.specs.Prelude.{◌≤ℤ◌, pos};
ghost use Rattle.term_model.specs.Limits.{last_start};
ghost use Rattle.term_model.specs.Declarations.{declarations};
ghost use Rattle.term_model.specs.Environments.{IsAdmitted};
ghost use Rattle.term_model.specs.Acceptance.{IsAccepted};
ghost use Rattle.term_core.specs.SharedTerms.{shared};
ghost use Rattle.flow_eval.specs.FlowAnswers.{AreFlows};
ghost use Rattle.flow_eval.specs.WalkAnswers.{ArePaymentsOf};

use crate::faults::FlowErr;
use crate::flow_table::FlowTable;
use crate::netting::netted;
use crate::payments::Payment;
use crate::shared_walk::gather_shared;
use crate::walk::{Basis, Standing};
use expr_eval::Scratch;
use fixing_files::Fixings;
use std::alloc::Global;
use std::rc::Rc;
use term_core::SharedContr;
use term_model::Decls;

// The payments up to the last day of a contract that stands on a day.
fn payments_shared(
    alloc: Global,
    basis: &Basis,
    s: &SharedContr,
    frame: i64,
) -> Result<Vec<Payment>, FlowErr>
    requires accepted { IsAccepted (declarations basis.now.decls.now) (shared s.now) }
    requires admitted { IsAdmitted (declarations basis.now.decls.now) basis.now.fixings.now }
    requires first { pos 0 ≤ℤ frame }
    requires last { frame ≤ℤ pos last_start }
    ensures { ArePaymentsOf basis.now (shared s.now) frame result }
{
    let mut payments = Vec::new(alloc);
    let mut scratch = Scratch::for_height(alloc, 200)?;
    let here = Standing {
        day: frame,
        decimals: basis.decls.amounts,
    };
    gather_shared(basis, &mut payments, &mut scratch, here, s)?;
    Ok(payments)
}

/// The flow table of an accepted contract with shared parts that stands on a day from 0 to
/// 1,000,000, from that day up to `until`, as `flows_on` has it of the contract for which it
/// stands. That contract is not made.
pub fn flows_shared(
    alloc: Global,
    decls: &Decls,
    s: &Rc<SharedContr>,
    fixings: &Fixings,
    frame: i64,
    until: i64,
) -> Result<FlowTable, FlowErr>
    requires accepted { IsAccepted (declarations decls.now) (shared s.now.value) }
    requires admitted { IsAdmitted (declarations decls.now) fixings.now }
    requires first { pos 0 ≤ℤ frame }
    requires last { frame ≤ℤ pos last_start }
    ensures { AreFlows (declarations decls.now) (shared s.now.value) fixings.now frame until
        result }
{
    let basis = Basis {
        decls,
        fixings,
        until,
    };
    let payments = payments_shared(alloc, &basis, s, frame)?;
    Ok(netted(alloc, payments)?)
}
