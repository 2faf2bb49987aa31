//! The rule on scales: every expression meets it as in contracts, and the scale of all code is at
//! most nine more than the portfolio's amounts have, since a discount factor has nine decimals. A
//! function pays at entry for the locals of all its arms, so each form of code with parts has one
//! of its own.

ghost use Rattle.std.specs.Prelude.{◌≡◌, ◌<◌, ◌≤◌, ◌+◌, ◌^◌, IfOk};
ghost use Rattle.term_model.specs.Declarations.{declarations};
ghost use Rattle.term_model.specs.declared.rules.Rule.{Rule};
ghost use Rattle.term_model.specs.Terms.{expression};
ghost use Rattle.term_model.specs.Sizes.{nodes};
ghost use Rattle.payoff_terms.specs.Code.{payoff_code};
ghost use Rattle.payoff_terms.specs.CodeSizes.{nodes_of_code};
ghost use Rattle.payoff_terms.specs.CodeAcceptance.{MeetsInCode};
ghost use Rattle.payoff_check.specs.Parts.{added, multiple, naming, looping, cutting};
ghost use Rattle.payoff_check.specs.Verdicts.{IsCodeVerdict, IsScaleOf};
ghost use Rattle.payoff_check.specs.Trials.{Tells, undated_value};
ghost use Rattle.payoff_check.specs.ScaleTrials.{kept, scale_among, scales_among};

use crate::faults::Fault;
use crate::undated::undated_of;
use decimal::NoMemory;
use payoff_terms::{Code, Vx};
use scale_check::scale_of_expr;
use std::alloc::Global;
use term_core::nodes_in;
use term_model::{CheckErr, Decls, Expr, Rule, Scope, Setting};

/// The scale of a part, and its nodes.
#[derive(Clone, Copy)]
pub struct Scaled {
    pub scale: u8,
    pub nodes: u32,
}

// Of an undated expression whose first node has a number.
fn scale_of_undated(decls: &Decls, e: &Expr, scope: &Scope<u8>, node: u32) -> Result<Scaled, Fault>
    requires { node + nodes (expression e.now) < 2 ^ 32 }
    ensures scale { Tells result (scale_among decls.now (expression e.now) scope.now node) }
    ensures nodes { IfOk result (λ found. found.nodes ≡ nodes (expression e.now)) }
    ensures within { IfOk result (λ found. found.scale ≤ 27) }
{
    match scale_of_expr(decls, e, scope) {
        Ok(scale) => Ok(Scaled {
            scale,
            nodes: nodes_in(e),
        }),
        Err(part) => Err(Fault::At { node: node + part }),
    }
}

// Of a value expression whose first node has a number.
fn scale_of_value(
    alloc: Global,
    decls: &Decls,
    v: &Vx,
    scope: &Scope<u8>,
    node: u32,
) -> Result<Scaled, Fault>
    requires { node + nodes (undated_value v.now) < 2 ^ 32 }
    ensures scale { Tells result (scale_among decls.now (undated_value v.now) scope.now node) }
    ensures nodes { IfOk result (λ found. found.nodes ≡ nodes (undated_value v.now)) }
    ensures within { IfOk result (λ found. found.scale ≤ 27) }
{
    match undated_of(alloc, v) {
        Ok(e) => scale_of_undated(decls, &e, scope, node),
        Err(NoMemory) => Err(Fault::NoMemory),
    }
}

// A part of code whose scale is at most the greatest, else a fault at its own node.
fn keep(greatest: u8, scale: u8, nodes: u32, node: u32) -> Result<Scaled, Fault>
    ensures scale { Tells result (kept greatest scale nodes node) }
    ensures nodes { IfOk result (λ found. found.nodes ≡ nodes) }
    ensures within { IfOk result (λ found. found.scale ≤ greatest) }
{
    if scale <= greatest {
        Ok(Scaled { scale, nodes })
    } else {
        Err(Fault::At { node })
    }
}

// The scale of code whose own node has a number, among names of these scales.
#[cycle(scaling)]
fn scales_of(
    alloc: Global,
    decls: &Decls,
    k: &Code,
    scope: &Scope<u8>,
    node: u32,
) -> Result<Scaled, Fault>
    requires { node + nodes_of_code (payoff_code k.now) < 2 ^ 32 }
    ensures scale { Tells result (scales_among decls.now (payoff_code k.now) scope.now node) }
    ensures nodes { IfOk result (λ found. found.nodes ≡ nodes_of_code (payoff_code k.now)) }
    ensures within { IfOk result (λ found. found.scale ≤ decls.now.amounts + 9) }
{
    match k {
        Code::None => keep(decls.amounts + 9, 0, 1, node),
        Code::Pay { .. } => keep(decls.amounts + 9, 9, 1, node),
        Code::Add { left, right } => scale_of_sum(alloc, decls, left, right, scope, node),
        Code::Scale { factor, body } => scale_of_product(alloc, decls, factor, body, scope, node),
        Code::Let { bound, body } => scale_of_let(alloc, decls, bound, body, scope, node),
        Code::LoopIf {
            test,
            hit,
            miss,
            ..
        } => scale_of_loop(alloc, decls, test, hit, miss, scope, node),
        Code::Cut { body, .. } => scale_of_cut(alloc, decls, body, scope, node),
    }
}

// Of two parts together.
#[cycle(scaling)]
fn scale_of_sum(
    alloc: Global,
    decls: &Decls,
    left: &Code,
    right: &Code,
    scope: &Scope<u8>,
    node: u32,
) -> Result<Scaled, Fault>
    requires { node + nodes_of_code (added left.now right.now) < 2 ^ 32 }
    ensures scale { Tells result
        (scales_among decls.now (added left.now right.now) scope.now node) }
    ensures nodes { IfOk result (λ found. found.nodes ≡ nodes_of_code (added left.now right.now)) }
    ensures within { IfOk result (λ found. found.scale ≤ decls.now.amounts + 9) }
{
    let one = scales_of(alloc, decls, left, scope, node + 1)?;
    let two = scales_of(alloc, decls, right, scope, node + 1 + one.nodes)?;
    let nodes = one.nodes + two.nodes + 1;
    keep(decls.amounts + 9, one.scale.max(two.scale), nodes, node)
}

// Of a part that is multiplied by a factor.
#[cycle(scaling)]
fn scale_of_product(
    alloc: Global,
    decls: &Decls,
    factor: &Vx,
    body: &Code,
    scope: &Scope<u8>,
    node: u32,
) -> Result<Scaled, Fault>
    requires { node + nodes_of_code (multiple factor.now body.now) < 2 ^ 32 }
    ensures scale { Tells result
        (scales_among decls.now (multiple factor.now body.now) scope.now node) }
    ensures nodes { IfOk result
        (λ found. found.nodes ≡ nodes_of_code (multiple factor.now body.now)) }
    ensures within { IfOk result (λ found. found.scale ≤ decls.now.amounts + 9) }
{
    let found = scale_of_value(alloc, decls, factor, scope, node + 1)?;
    let part = scales_of(alloc, decls, body, scope, node + 1 + found.nodes)?;
    let nodes = found.nodes + part.nodes + 1;
    keep(decls.amounts + 9, found.scale + part.scale, nodes, node)
}

// Of a part with a name for what is bound.
#[cycle(scaling)]
fn scale_of_let(
    alloc: Global,
    decls: &Decls,
    bound: &Vx,
    body: &Code,
    scope: &Scope<u8>,
    node: u32,
) -> Result<Scaled, Fault>
    requires { node + nodes_of_code (naming bound.now body.now) < 2 ^ 32 }
    ensures scale { Tells result
        (scales_among decls.now (naming bound.now body.now) scope.now node) }
    ensures nodes { IfOk result (λ found. found.nodes ≡ nodes_of_code (naming bound.now body.now)) }
    ensures within { IfOk result (λ found. found.scale ≤ decls.now.amounts + 9) }
{
    let found = scale_of_value(alloc, decls, bound, scope, node + 1)?;
    let inner = Scope::Bound {
        held: found.scale,
        outer: &*scope,
    };
    let part = scales_of(alloc, decls, body, &inner, node + 1 + found.nodes)?;
    keep(
        decls.amounts + 9,
        part.scale,
        found.nodes + part.nodes + 1,
        node,
    )
}

// Of two parts of which one is entered by a test.
#[cycle(scaling)]
fn scale_of_loop(
    alloc: Global,
    decls: &Decls,
    test: &Vx,
    hit: &Code,
    miss: &Code,
    scope: &Scope<u8>,
    node: u32,
) -> Result<Scaled, Fault>
    requires { node + nodes_of_code (looping test.now hit.now miss.now) < 2 ^ 32 }
    ensures scale { Tells result
        (scales_among decls.now (looping test.now hit.now miss.now) scope.now node) }
    ensures nodes { IfOk result
        (λ found. found.nodes ≡ nodes_of_code (looping test.now hit.now miss.now)) }
    ensures within { IfOk result (λ found. found.scale ≤ decls.now.amounts + 9) }
{
    let found = scale_of_value(alloc, decls, test, scope, node + 1)?;
    let after = node + 1 + found.nodes;
    let one = scales_of(alloc, decls, hit, scope, after)?;
    let two = scales_of(alloc, decls, miss, scope, after + one.nodes)?;
    let nodes = found.nodes + one.nodes + two.nodes + 1;
    keep(decls.amounts + 9, one.scale.max(two.scale), nodes, node)
}

// Of a part under a `cut`.
#[cycle(scaling)]
fn scale_of_cut(
    alloc: Global,
    decls: &Decls,
    body: &Code,
    scope: &Scope<u8>,
    node: u32,
) -> Result<Scaled, Fault>
    requires { node + nodes_of_code (cutting body.now) < 2 ^ 32 }
    ensures scale { Tells result (scales_among decls.now (cutting body.now) scope.now node) }
    ensures nodes { IfOk result (λ found. found.nodes ≡ nodes_of_code (cutting body.now)) }
    ensures within { IfOk result (λ found. found.scale ≤ decls.now.amounts + 9) }
{
    let part = scales_of(alloc, decls, body, scope, node + 1)?;
    keep(decls.amounts + 9, part.scale, part.nodes + 1, node)
}

/// The scale of code whose sorts are right, where the rule on scales holds everywhere in it. Where
/// it fails, the answer has the first node at fault, in the order in which the rules of acceptance
/// try nodes.
pub fn scales(alloc: Global, decls: &Decls, _setting: &Setting, k: &Code) -> Result<u8, CheckErr>
    requires small { nodes_of_code (payoff_code k.now) < 2 ^ 32 }
    requires sorted { MeetsInCode (declarations decls.now) _setting.now.days.items Rule.Sort
        (payoff_code k.now) }
    ensures { IsCodeVerdict (declarations decls.now) _setting.now.days.items Rule.Scale
        (payoff_code k.now) IsScaleOf result }
{
    match scales_of(alloc, decls, k, &Scope::Empty, 0) {
        Ok(found) => Ok(found.scale),
        Err(Fault::At { node }) => Err(CheckErr::Refused {
            rule: Rule::Scale,
            node,
        }),
        Err(Fault::NoMemory) => Err(CheckErr::NoMemory),
    }
}
