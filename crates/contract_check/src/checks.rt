//! All five rules of acceptance, in their order.

ghost use Rattle.std.specs.Prelude.{◌≤◌, ◌<◌, ◌^◌};
ghost use Rattle.term_model.specs.Declarations.{declarations};
ghost use Rattle.term_model.specs.declared.rules.Rule.{Rule};
ghost use Rattle.term_model.specs.Terms.{contract};
ghost use Rattle.term_model.specs.Sizes.{nodes_of_contract, height_of_contract};
ghost use Rattle.term_model.specs.WellFormed.{IsClosed, HasOnlyNumbers};
ghost use Rattle.term_model.specs.Verdicts.{IsVerdict};
ghost use Rattle.contract_check.specs.Checks.{IsChecked};

use crate::horizons::horizon;
use crate::simple_contracts::simple_facts;
use interval_check::bounds;
use scale_check::{scales, sizes};
use std::alloc::Global;
use term_model::{CheckErr, Contr, Decls};
use time_types::{Start, sorts, times};

/// What is said of an accepted contract.
#[derive(Clone, Copy, Debug, PartialEq, Eq)]
pub struct Facts {
    /// The day, counted from the one on which the contract stands, before which it transfers
    /// nothing.
    pub start: Start,
    /// The number of decimals of its amounts, as the contract states them.
    pub scale: u8,
    /// The most that it pays over all days, for one pair of parties and one asset, in units of the
    /// portfolio's decimals.
    pub total: i128,
    /// The number of days, from the one on which it stands, after which it pays nothing more.
    pub horizon: u32,
}

// Whether the rule on sizes holds everywhere in a contract. It asks nothing of the declarations.
fn limited(_decls: &Decls, c: &Contr) -> Result<(), CheckErr>
    requires low { height_of_contract (contract c.now) ≤ 1_000 }
    requires small { nodes_of_contract (contract c.now) < 2 ^ 32 }
    requires numbers { HasOnlyNumbers (contract c.now) }
    ensures { IsVerdict (declarations _decls.now) Rule.Size (contract c.now)
        (λ _. Unit {0}) result }
{
    match sizes(c) {
        Ok(_) => Ok(()),
        Err(fault) => Err(CheckErr::Refused {
            rule: fault.rule,
            node: fault.node,
        }),
    }
}

// The answer by the five rules, each in a walk of its own.
fn check_by_rules(alloc: Global, decls: &Decls, c: &Contr) -> Result<Facts, CheckErr>
    requires closed { IsClosed (declarations decls.now) (contract c.now) }
    requires numbers { HasOnlyNumbers (contract c.now) }
    requires low { height_of_contract (contract c.now) ≤ 1_000 }
    requires small { nodes_of_contract (contract c.now) < 2 ^ 32 }
    ensures { IsChecked (declarations decls.now) (contract c.now) result }
{
    sorts(alloc, decls, c)?;
    let start = times(alloc, decls, c)?;
    let scale = scales(alloc, decls, c)?;
    limited(decls, c)?;
    let total = bounds(alloc, decls, c)?;
    let horizon = horizon(c);
    Ok(Facts {
        start,
        scale,
        total,
        horizon,
    })
}

/// Whether a contract is accepted, and what is said of it then. Where it is not, the answer has the
/// first rule that fails and the first node at which it does. The rules are tried on sorts, times,
/// scales, sizes and bounds, in this order.
pub fn check(alloc: Global, decls: &Decls, c: &Contr) -> Result<Facts, CheckErr>
    requires closed { IsClosed (declarations decls.now) (contract c.now) }
    requires numbers { HasOnlyNumbers (contract c.now) }
    requires low { height_of_contract (contract c.now) ≤ 1_000 }
    requires small { nodes_of_contract (contract c.now) < 2 ^ 32 }
    ensures { IsChecked (declarations decls.now) (contract c.now) result }
{
    match simple_facts(decls, c) {
        Some(facts) => Ok(facts),
        None => check_by_rules(alloc, decls, c),
    }
}
