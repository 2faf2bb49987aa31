//! Names in contracts with shared parts, as in expressions.

ghost use Rattle.std.specs.Prelude.{◌≡◌, ◌≤◌, ◌+◌, ◌^◌, IfOk, true};
ghost use Rattle.term_model.specs.Terms.{expression};
ghost use Rattle.term_model.specs.Sizes.{height_of_contract};
ghost use Rattle.term_model.specs.Redexes.{is_literal, uses_in_contract};
ghost use Rattle.term_core.specs.SharedTerms.{shared, StoresOffsets};
ghost use Rattle.rewriting.specs.RebuildingContracts.{after_in, NewStoresOffsets};
ghost use Rattle.rewriting.specs.Substituting.{substituted_in};

use crate::contracts::{after_of, both_of, let_of, scale_of, within_of};
use crate::naming::{substituted, uses};
use decimal::NoMemory;
use std::alloc::Global;
use std::rc::Rc;
use term_core::SharedContr;
use term_model::Expr;

/// Whether a contract uses the name with `back` binders between.
#[tactic(auto, using(crate::proofs::ShiftedSizes::shifted_uses, crate::proofs::ShiftedSizes::shifted_height))]
pub fn uses_in(s: &SharedContr, back: u32) -> bool
    requires { back + height_of_contract (shared s.now) ≤ 2 ^ 31 }
    ensures { result ≡ uses_in_contract back (shared s.now) }
{
    match s {
        SharedContr::Zero | SharedContr::Pay { .. } => false,
        SharedContr::Both { left, right } => uses_in(left, back) || uses_in(right, back),
        SharedContr::Scale { factor, body, .. } => uses(factor, back) || uses_in(body, back),
        SharedContr::After { body, .. } => uses_in(body, back),
        SharedContr::Let { bound, body, .. } => uses(bound, back) || uses_in(body, back + 1),
        SharedContr::Within {
            test,
            hit,
            miss,
            ..
        } => uses(test, back) || (uses_in(hit, back) || uses_in(miss, back)),
    }
}

/// The contract with a literal for the name with `back` binders between, as an expression with one.
#[tactic(auto, using(crate::proofs::Offsets::for_substituted))]
pub fn substituted_in(
    alloc: Global,
    s: &SharedContr,
    back: u32,
    other: &Expr,
) -> Result<Option<Rc<SharedContr>>, NoMemory>
    requires low { back + height_of_contract (shared s.now) ≤ 2 ^ 31 }
    requires literal { is_literal (expression other.now) ≡ true }
    ensures same { IfOk result (λ r. after_in (shared s.now) r
        ≡ substituted_in back (expression other.now) (shared s.now)) }
    ensures offsets { IfOk result (λ r. StoresOffsets s.now → NewStoresOffsets r) }
{
    match s {
        SharedContr::Zero | SharedContr::Pay { .. } => Ok(None),
        SharedContr::Both { left, right } => {
            let one = substituted_in(alloc, left, back, other)?;
            let two = substituted_in(alloc, right, back, other)?;
            both_of(alloc, s, left, right, one, two)
        }
        SharedContr::Scale {
            factor,
            moved,
            body,
        } => {
            let one = substituted(alloc, factor, back, other)?;
            let two = substituted_in(alloc, body, back, other)?;
            scale_of(alloc, s, factor, *moved, body, one, two)
        }
        SharedContr::After { days, body } => {
            let new = substituted_in(alloc, body, back, other)?;
            after_of(alloc, s, *days, body, new)
        }
        SharedContr::Let { bound, moved, body } => {
            let one = substituted(alloc, bound, back, other)?;
            let two = substituted_in(alloc, body, back + 1, other)?;
            let_of(alloc, s, bound, *moved, body, one, two)
        }
        SharedContr::Within {
            test,
            days,
            hit,
            miss,
        } => {
            let one = substituted(alloc, test, back, other)?;
            let two = substituted_in(alloc, hit, back, other)?;
            let three = substituted_in(alloc, miss, back, other)?;
            within_of(alloc, s, test, *days, hit, miss, one, two, three)
        }
    }
}
