//! The rule on bounds: every end point and every aligned operand is at most 10^37 in size, no
//! divisor's interval holds 0, and every total is at most 10^27, as it is and at the portfolio's
//! decimals. The trial of a contract answers its total, or the number of the node at fault, counted
//! from the contract's own first node; nodes before it are counted only on the way up from a fault,
//! so that no part is visited more than twice. A function pays at entry for the locals of all its
//! arms, so each form with parts has one of its own.

ghost use Rattle.std.specs.Prelude.{◌≡◌, ◌<◌, ◌+◌, ◌^◌, pos, [], IfOk};
ghost use Rattle.term_model.specs.Declarations.{declarations};
ghost use Rattle.term_model.specs.declared.rules.Rule.{Rule};
ghost use Rattle.term_model.specs.Terms.{expression, contract, Both, Scale, Let};
ghost use Rattle.term_model.specs.Sizes.{nodes, nodes_of_contract};
ghost use Rattle.term_model.specs.Bounds.{aligned_total};
ghost use Rattle.term_core.specs.Trying.{FaultIsWithin, moved};
ghost use Rattle.term_model.specs.Acceptance.{Meets};
ghost use Rattle.term_model.specs.Verdicts.{IsVerdict};
ghost use Rattle.interval_check.specs.ScopedTrials.{total_among, total_within};
ghost use Rattle.interval_check.specs.ScopedTrials.{PaysScaledAmong, PaysScaledBranches};
ghost use Rattle.interval_check.specs.ScopedTrials.{PaysScaledWithin};
ghost use Rattle.interval_check.specs.ScopedTrials as tried;
ghost use Rattle.interval_check.specs.Totals.{total, total_found, IsTotal};

use crate::range_rule::range_of;
use crate::ranges::Range;
use crate::totals::{
    Total, amount_at, checked_total, total_of_both, total_of_either, total_of_scaled,
};
use std::alloc::Global;
use term_core::{behind, behind_both, behind_contract, behind_node};
use term_model::{CheckErr, Contr, Decls, Expr, Rule, Scope};

/// The total of a contract among names of these ranges.
#[cycle(totalling)]
pub fn total_of(decls: &Decls, c: &Contr, scope: &Scope<Range>) -> Result<Total, u32>
    requires nodes { nodes_of_contract (contract c.now) < 2 ^ 32 }
    requires scaled { PaysScaledAmong decls.now c.now scope.now }
    ensures total { total_found result ≡ total_among decls.now c.now scope.now }
    ensures below { FaultIsWithin (nodes_of_contract (contract c.now)) result }
    ensures fits { IfOk result (λ t. IsTotal decls.now.amounts t) }
{
    match c {
        Contr::Zero => checked_total(decls.amounts, 0, 0),
        Contr::Pay { .. } => checked_total(decls.amounts, 1, 0),
        Contr::Both { left, right } => total_of_parts(decls, left, right, scope),
        Contr::Scale { factor, body } => total_of_scale(decls, factor, body, scope),
        Contr::After { body, .. } => total_of_later(decls, body, scope),
        Contr::Let { bound, body } => total_of_let(decls, bound, body, scope),
        Contr::Within {
            test,
            hit,
            miss,
            ..
        } => total_of_branches(decls, test, hit, miss, scope),
    }
}

// Of two contracts together.
#[cycle(totalling)]
fn total_of_parts(
    decls: &Decls,
    left: &Contr,
    right: &Contr,
    scope: &Scope<Range>,
) -> Result<Total, u32>
    requires nodes { nodes_of_contract (contract left.now)
        + nodes_of_contract (contract right.now) + 1 < 2 ^ 32 }
    requires left { PaysScaledAmong decls.now left.now scope.now }
    requires right { PaysScaledAmong decls.now right.now scope.now }
    ensures total { total_found result ≡ total_within decls.now
        (Both (contract left.now) (contract right.now)) scope.now }
    ensures below { FaultIsWithin (nodes_of_contract (contract left.now)
        + nodes_of_contract (contract right.now) + 1) result }
    ensures fits { IfOk result (λ t. IsTotal decls.now.amounts t) }
{
    let left_total = behind_node(total_of(decls, left, scope))?;
    let right_total = behind_contract(left, total_of(decls, right, scope))?;
    total_of_both(decls.amounts, left_total, right_total)
}

// Of a body that is multiplied by a factor.
#[cycle(totalling)]
fn total_of_scale(
    decls: &Decls,
    factor: &Expr,
    body: &Contr,
    scope: &Scope<Range>,
) -> Result<Total, u32>
    requires nodes { nodes (expression factor.now)
        + nodes_of_contract (contract body.now) + 1 < 2 ^ 32 }
    requires scaled { PaysScaledWithin decls.now
        (Scale (expression factor.now) (contract body.now)) scope.now }
    ensures total { total_found result ≡ total_within decls.now
        (Scale (expression factor.now) (contract body.now)) scope.now }
    ensures below { FaultIsWithin
        (nodes (expression factor.now) + nodes_of_contract (contract body.now) + 1) result }
    ensures fits { IfOk result (λ t. IsTotal decls.now.amounts t) }
{
    let range = behind_node(range_of(decls, factor, scope))?;
    let body_total = behind(factor, total_of(decls, body, scope))?;
    total_of_scaled(decls.amounts, range, body_total)
}

// Of a body that waits.
#[cycle(totalling)]
fn total_of_later(decls: &Decls, body: &Contr, scope: &Scope<Range>) -> Result<Total, u32>
    requires nodes { nodes_of_contract (contract body.now) + 1 < 2 ^ 32 }
    requires scaled { PaysScaledAmong decls.now body.now scope.now }
    ensures total { total_found result ≡ moved 1 (total_among decls.now body.now scope.now) }
    ensures below { FaultIsWithin
        (nodes_of_contract (contract body.now) + 1) result }
    ensures fits { IfOk result (λ t. IsTotal decls.now.amounts t) }
{
    behind_node(total_of(decls, body, scope))
}

// Of a body with a name for what is bound.
#[cycle(totalling)]
fn total_of_let(
    decls: &Decls,
    bound: &Expr,
    body: &Contr,
    scope: &Scope<Range>,
) -> Result<Total, u32>
    requires nodes { nodes (expression bound.now)
        + nodes_of_contract (contract body.now) + 1 < 2 ^ 32 }
    requires scaled { PaysScaledWithin decls.now
        (Let (expression bound.now) (contract body.now)) scope.now }
    ensures total { total_found result ≡ total_within decls.now
        (Let (expression bound.now) (contract body.now)) scope.now }
    ensures below { FaultIsWithin
        (nodes (expression bound.now) + nodes_of_contract (contract body.now) + 1) result }
    ensures fits { IfOk result (λ t. IsTotal decls.now.amounts t) }
{
    let range = behind_node(range_of(decls, bound, scope))?;
    let inner = Scope::Bound {
        held: range,
        outer: &*scope,
    };
    behind(bound, total_of(decls, body, &inner))
}

// Of the branch that a test enters.
#[cycle(totalling)]
fn total_of_branches(
    decls: &Decls,
    test: &Expr,
    hit: &Contr,
    miss: &Contr,
    scope: &Scope<Range>,
) -> Result<Total, u32>
    requires nodes { nodes (expression test.now) + nodes_of_contract (contract hit.now)
        + nodes_of_contract (contract miss.now) + 1 < 2 ^ 32 }
    requires scaled { PaysScaledBranches decls.now test.now hit.now miss.now scope.now }
    ensures total { total_found result
        ≡ tried.total_of_branches decls.now test.now hit.now miss.now scope.now }
    ensures below { FaultIsWithin
        (nodes (expression test.now) + nodes_of_contract (contract hit.now)
        + nodes_of_contract (contract miss.now) + 1) result }
    ensures fits { IfOk result (λ t. IsTotal decls.now.amounts t) }
{
    behind_node(range_of(decls, test, scope))?;
    let hit_total = behind(test, total_of(decls, hit, scope))?;
    let miss_total = behind_both(test, hit, total_of(decls, miss, scope))?;
    total_of_either(decls.amounts, hit_total, miss_total)
}

/// The total of a contract at the portfolio's decimals: the most that it can pay over all days, for
/// a pair of parties and an asset, in units of ten to the minus those decimals. `Refused` names the
/// first node in the order of trial that breaks the rule on bounds: a mantissa or an aligned
/// operand of more than 10^37 in size, a divisor that may be 0, or a total of more than 10^27, as
/// it is or at the portfolio's decimals. An accumulator's body is tried anew for each of its days.
/// It takes no memory, which its clause leaves open.
pub fn bounds(alloc: Global, decls: &Decls, c: &Contr) -> Result<i128, CheckErr>
    requires sorted { Meets (declarations decls.now) Rule.Sort (contract c.now) }
    requires scaled { Meets (declarations decls.now) Rule.Scale (contract c.now) }
    requires small { Meets (declarations decls.now) Rule.Size (contract c.now) }
    ensures { IsVerdict (declarations decls.now) Rule.Bound (contract c.now)
        (λ total. total ≡ pos (aligned_total (declarations decls.now) (contract c.now) [])) result }
{
    match total_of(decls, c, &Scope::Empty) {
        Ok(total) => Ok(amount_at(decls.amounts, total) as i128),
        Err(node) => Err(CheckErr::Refused {
            rule: Rule::Bound,
            node,
        }),
    }
}
