//! The rule on bounds: value expressions meet it as in contracts, and the total of all code is at
//! most 10^37, as it is and at nine more decimals than the portfolio's. A payment counts with the
//! greatest discount factor, which is 10. A function pays at entry for the locals of all its arms,
//! so each form of code with parts has one of its own.

ghost use Rattle.std.specs.Prelude.{◌≡◌, ◌<◌, ◌+◌, ◌^◌, IfOk};
ghost use Rattle.term_model.specs.Declarations.{declarations};
ghost use Rattle.term_model.specs.declared.rules.Rule.{Rule};
ghost use Rattle.term_model.specs.Terms.{expression};
ghost use Rattle.term_model.specs.Sizes.{nodes};
ghost use Rattle.interval_check.specs.Ranges.{range, IsFit};
ghost use Rattle.interval_check.specs.ScopedTrials.{IsScaledWithin};
ghost use Rattle.payoff_terms.specs.Code.{payoff_code};
ghost use Rattle.payoff_terms.specs.CodeSizes.{nodes_of_code};
ghost use Rattle.payoff_terms.specs.CodeAcceptance.{MeetsInCode};
ghost use Rattle.payoff_check.specs.Parts.{added, multiple, naming, looping, cutting};
ghost use Rattle.payoff_check.specs.Verdicts.{IsCodeVerdict, IsTotalOf};
ghost use Rattle.payoff_check.specs.Trials.{Tells, TellsAs, undated_value};
ghost use Rattle.payoff_check.specs.BoundTrials.{AreScaledAmong, HasKindAmong, IsFitting};
ghost use Rattle.payoff_check.specs.BoundTrials.{bounds_among, of_part, range_among, ranged};
ghost use Rattle.payoff_check.specs.BoundTrials.{total_here};

use crate::decimals::Decimals;
use crate::faults::Fault;
use crate::totals::{CodeTotal, checked, greater_of, product_of, sum_of};
use crate::undated::undated_of;
use decimal::NoMemory;
use interval_check::{Range, range_of};
use payoff_terms::{Code, Vx};
use std::alloc::Global;
use term_core::nodes_in;
use term_model::{CheckErr, Decls, Expr, Rule, Scope, Setting};

/// The range of a value expression, and its nodes.
#[derive(Clone, Copy)]
pub struct Ranged {
    pub range: Range,
    pub nodes: u32,
}

// Of an undated expression whose first node has a number.
fn range_of_undated(
    decls: &Decls,
    e: &Expr,
    scope: &Scope<Range>,
    node: u32,
) -> Result<Ranged, Fault>
    requires nodes { node + nodes (expression e.now) < 2 ^ 32 }
    requires scaled { IsScaledWithin decls.now (expression e.now) scope.now }
    ensures range { TellsAs ranged result
        (range_among decls.now (expression e.now) scope.now node) }
    ensures nodes { IfOk result (λ found. found.nodes ≡ nodes (expression e.now)) }
    ensures kind { IfOk result (HasKindAmong decls.now (expression e.now) scope.now) }
    ensures fit { IfOk result (λ found. IsFit (range found.range)) }
{
    match range_of(decls, e, scope) {
        Ok(range) => Ok(Ranged {
            range,
            nodes: nodes_in(e),
        }),
        Err(part) => Err(Fault::At { node: node + part }),
    }
}

// Of a value expression whose first node has a number.
fn range_of_value(
    alloc: Global,
    decls: &Decls,
    v: &Vx,
    scope: &Scope<Range>,
    node: u32,
) -> Result<Ranged, Fault>
    requires nodes { node + nodes (undated_value v.now) < 2 ^ 32 }
    requires scaled { IsScaledWithin decls.now (undated_value v.now) scope.now }
    ensures range { TellsAs ranged result
        (range_among decls.now (undated_value v.now) scope.now node) }
    ensures nodes { IfOk result (λ found. found.nodes ≡ nodes (undated_value v.now)) }
    ensures kind { IfOk result (HasKindAmong decls.now (undated_value v.now) scope.now) }
    ensures fit { IfOk result (λ found. IsFit (range found.range)) }
{
    match undated_of(alloc, v) {
        Ok(e) => range_of_undated(decls, &e, scope, node),
        Err(NoMemory) => Err(Fault::NoMemory),
    }
}

// The count of decimals at which totals are tried besides.
fn decimals_of(decls: &Decls) -> Decimals
    ensures { result.count ≡ decls.now.amounts + 9 }
{
    Decimals {
        count: decls.amounts + 9,
    }
}

// The total of a part, where some nodes more stand in the whole.
fn checked_part(
    decimals: Decimals,
    count: u32,
    part: CodeTotal,
    node: u32,
) -> Result<CodeTotal, Fault>
    requires { count + part.nodes + 1 < 2 ^ 32 }
    ensures total { Tells result (total_here decimals.count (of_part count part) node) }
    ensures nodes { IfOk result (λ t. t.nodes ≡ count + part.nodes + 1) }
    ensures fits { IfOk result (λ t. IsFitting decimals.count t) }
{
    let of = CodeTotal {
        amount: part.amount,
        scale: part.scale,
        nodes: count + part.nodes + 1,
    };
    checked(decimals, of, node)
}

// A total without parts.
fn checked_leaf(decimals: Decimals, amount: u128, scale: u8, node: u32) -> Result<CodeTotal, Fault>
    ensures total { Tells result (total_here decimals.count
        (record { amount = amount; scale = scale; nodes = 1 }) node) }
    ensures nodes { IfOk result (λ t. t.nodes ≡ 1) }
    ensures fits { IfOk result (λ t. IsFitting decimals.count t) }
{
    let of = CodeTotal {
        amount,
        scale,
        nodes: 1,
    };
    checked(decimals, of, node)
}

// The total of code whose own node has a number, among names of these ranges.
#[cycle(bounding)]
fn bounds_of(
    alloc: Global,
    decls: &Decls,
    k: &Code,
    scope: &Scope<Range>,
    node: u32,
) -> Result<CodeTotal, Fault>
    requires nodes { node + nodes_of_code (payoff_code k.now) < 2 ^ 32 }
    requires scaled { AreScaledAmong decls.now (payoff_code k.now) scope.now }
    ensures total { Tells result (bounds_among decls.now (payoff_code k.now) scope.now node) }
    ensures nodes { IfOk result (λ found. found.nodes ≡ nodes_of_code (payoff_code k.now)) }
    ensures fits { IfOk result (λ found. IsFitting (decls.now.amounts + 9) found) }
{
    match k {
        Code::None => checked_leaf(decimals_of(decls), 0, 0, node),
        Code::Pay { .. } => checked_leaf(decimals_of(decls), 10_000_000_000, 9, node),
        Code::Add { left, right } => bound_of_sum(alloc, decls, left, right, scope, node),
        Code::Scale { factor, body } => bound_of_product(alloc, decls, factor, body, scope, node),
        Code::Let { bound, body } => bound_of_let(alloc, decls, bound, body, scope, node),
        Code::LoopIf {
            test,
            hit,
            miss,
            ..
        } => bound_of_loop(alloc, decls, test, hit, miss, scope, node),
        Code::Cut { body, .. } => bound_of_cut(alloc, decls, body, scope, node),
    }
}

// Of two parts together.
#[cycle(bounding)]
fn bound_of_sum(
    alloc: Global,
    decls: &Decls,
    left: &Code,
    right: &Code,
    scope: &Scope<Range>,
    node: u32,
) -> Result<CodeTotal, Fault>
    requires nodes { node + nodes_of_code (added left.now right.now) < 2 ^ 32 }
    requires scaled { AreScaledAmong decls.now (added left.now right.now) scope.now }
    ensures total { Tells result
        (bounds_among decls.now (added left.now right.now) scope.now node) }
    ensures nodes { IfOk result (λ found. found.nodes ≡ nodes_of_code (added left.now right.now)) }
    ensures fits { IfOk result (λ found. IsFitting (decls.now.amounts + 9) found) }
{
    let one = bounds_of(alloc, decls, left, scope, node + 1)?;
    let two = bounds_of(alloc, decls, right, scope, node + 1 + one.nodes)?;
    sum_of(decimals_of(decls), one, two, node)
}

// Of a part that is multiplied by a factor.
#[cycle(bounding)]
fn bound_of_product(
    alloc: Global,
    decls: &Decls,
    factor: &Vx,
    body: &Code,
    scope: &Scope<Range>,
    node: u32,
) -> Result<CodeTotal, Fault>
    requires nodes { node + nodes_of_code (multiple factor.now body.now) < 2 ^ 32 }
    requires scaled { AreScaledAmong decls.now (multiple factor.now body.now) scope.now }
    ensures total { Tells result
        (bounds_among decls.now (multiple factor.now body.now) scope.now node) }
    ensures nodes { IfOk result
        (λ found. found.nodes ≡ nodes_of_code (multiple factor.now body.now)) }
    ensures fits { IfOk result (λ found. IsFitting (decls.now.amounts + 9) found) }
{
    let found = range_of_value(alloc, decls, factor, scope, node + 1)?;
    let part = bounds_of(alloc, decls, body, scope, node + 1 + found.nodes)?;
    product_of(decimals_of(decls), found, part, node)
}

// Of a part with a name for what is bound.
#[cycle(bounding)]
fn bound_of_let(
    alloc: Global,
    decls: &Decls,
    bound: &Vx,
    body: &Code,
    scope: &Scope<Range>,
    node: u32,
) -> Result<CodeTotal, Fault>
    requires nodes { node + nodes_of_code (naming bound.now body.now) < 2 ^ 32 }
    requires scaled { AreScaledAmong decls.now (naming bound.now body.now) scope.now }
    ensures total { Tells result
        (bounds_among decls.now (naming bound.now body.now) scope.now node) }
    ensures nodes { IfOk result (λ found. found.nodes ≡ nodes_of_code (naming bound.now body.now)) }
    ensures fits { IfOk result (λ found. IsFitting (decls.now.amounts + 9) found) }
{
    let found = range_of_value(alloc, decls, bound, scope, node + 1)?;
    let inner = Scope::Bound {
        held: found.range,
        outer: &*scope,
    };
    let part = bounds_of(alloc, decls, body, &inner, node + 1 + found.nodes)?;
    checked_part(decimals_of(decls), found.nodes, part, node)
}

// Of two parts of which one is entered by a test.
#[cycle(bounding)]
fn bound_of_loop(
    alloc: Global,
    decls: &Decls,
    test: &Vx,
    hit: &Code,
    miss: &Code,
    scope: &Scope<Range>,
    node: u32,
) -> Result<CodeTotal, Fault>
    requires nodes { node + nodes_of_code (looping test.now hit.now miss.now) < 2 ^ 32 }
    requires scaled { AreScaledAmong decls.now (looping test.now hit.now miss.now) scope.now }
    ensures total { Tells result
        (bounds_among decls.now (looping test.now hit.now miss.now) scope.now node) }
    ensures nodes { IfOk result
        (λ found. found.nodes ≡ nodes_of_code (looping test.now hit.now miss.now)) }
    ensures fits { IfOk result (λ found. IsFitting (decls.now.amounts + 9) found) }
{
    let found = range_of_value(alloc, decls, test, scope, node + 1)?;
    let after = node + 1 + found.nodes;
    let one = bounds_of(alloc, decls, hit, scope, after)?;
    let two = bounds_of(alloc, decls, miss, scope, after + one.nodes)?;
    greater_of(decimals_of(decls), found.nodes, one, two, node)
}

// Of a part under a `cut`.
#[cycle(bounding)]
fn bound_of_cut(
    alloc: Global,
    decls: &Decls,
    body: &Code,
    scope: &Scope<Range>,
    node: u32,
) -> Result<CodeTotal, Fault>
    requires nodes { node + nodes_of_code (cutting body.now) < 2 ^ 32 }
    requires scaled { AreScaledAmong decls.now (cutting body.now) scope.now }
    ensures total { Tells result (bounds_among decls.now (cutting body.now) scope.now node) }
    ensures nodes { IfOk result (λ found. found.nodes ≡ nodes_of_code (cutting body.now)) }
    ensures fits { IfOk result (λ found. IsFitting (decls.now.amounts + 9) found) }
{
    let part = bounds_of(alloc, decls, body, scope, node + 1)?;
    checked_part(decimals_of(decls), 0, part, node)
}

/// The total of code whose sorts and scales are right, in units of its scale, where the rule on
/// bounds holds everywhere in it. Where it fails, the answer has the first node at fault, in the
/// order in which the rules of acceptance try nodes.
pub fn bounds(alloc: Global, decls: &Decls, _setting: &Setting, k: &Code) -> Result<i128, CheckErr>
    requires small { nodes_of_code (payoff_code k.now) < 2 ^ 32 }
    requires sorted { MeetsInCode (declarations decls.now) _setting.now.days.items Rule.Sort
        (payoff_code k.now) }
    requires scaled { MeetsInCode (declarations decls.now) _setting.now.days.items Rule.Scale
        (payoff_code k.now) }
    ensures { IsCodeVerdict (declarations decls.now) _setting.now.days.items Rule.Bound
        (payoff_code k.now) IsTotalOf result }
{
    match bounds_of(alloc, decls, k, &Scope::Empty, 0) {
        Ok(found) => Ok(found.amount as i128),
        Err(Fault::At { node }) => Err(CheckErr::Refused {
            rule: Rule::Bound,
            node,
        }),
        Err(Fault::NoMemory) => Err(CheckErr::NoMemory),
    }
}
