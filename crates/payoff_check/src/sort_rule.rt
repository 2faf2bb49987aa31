//! The rule on sorts: every expression is a number or a truth value, every factor is a number and
//! every test of a `loop` is a truth value. A function pays at entry for the locals of all its
//! arms, so each form of code with parts has one of its own.

ghost use Rattle.std.specs.Prelude.{◌≡◌, ◌<◌, ◌+◌, ◌^◌, IfOk};
ghost use Rattle.term_model.specs.Declarations.{declarations};
ghost use Rattle.term_model.specs.declared.rules.Rule.{Rule};
ghost use Rattle.term_model.specs.Terms.{expression};
ghost use Rattle.term_model.specs.Sizes.{nodes};
ghost use Rattle.payoff_terms.specs.Code.{payoff_code};
ghost use Rattle.payoff_terms.specs.CodeSizes.{nodes_of_code};
ghost use Rattle.payoff_check.specs.Parts.{added, multiple, naming, looping, cutting};
ghost use Rattle.payoff_check.specs.Verdicts.{IsCodeVerdict, NothingMore};
ghost use Rattle.payoff_check.specs.Trials.{Tells, undated_value};
ghost use Rattle.payoff_check.specs.SortTrials.{needed, sort_among, sorts_among};

use crate::faults::Fault;
use crate::undated::undated_of;
use decimal::NoMemory;
use payoff_terms::{Code, Vx};
use std::alloc::Global;
use term_core::nodes_in;
use term_model::{CheckErr, Decls, Expr, Rule, Scope, Setting};
use time_types::{Sort, sort_of_expr};

/// The sort of a value expression, and its nodes.
#[derive(Clone, Copy)]
pub struct Sorted {
    pub sort: Sort,
    pub nodes: u32,
}

// Of an undated expression whose first node has a number.
fn sort_of_undated(decls: &Decls, e: &Expr, scope: &Scope<Sort>, node: u32) -> Result<Sorted, Fault>
    requires { node + nodes (expression e.now) < 2 ^ 32 }
    ensures sort { Tells result (sort_among decls.now (expression e.now) scope.now node) }
    ensures nodes { IfOk result (λ found. found.nodes ≡ nodes (expression e.now)) }
{
    match sort_of_expr(decls, e, scope) {
        Ok(sort) => Ok(Sorted {
            sort,
            nodes: nodes_in(e),
        }),
        Err(part) => Err(Fault::At { node: node + part }),
    }
}

// Of a value expression whose first node has a number.
fn sort_of_value(
    alloc: Global,
    decls: &Decls,
    v: &Vx,
    scope: &Scope<Sort>,
    node: u32,
) -> Result<Sorted, Fault>
    requires { node + nodes (undated_value v.now) < 2 ^ 32 }
    ensures sort { Tells result (sort_among decls.now (undated_value v.now) scope.now node) }
    ensures nodes { IfOk result (λ found. found.nodes ≡ nodes (undated_value v.now)) }
{
    match undated_of(alloc, v) {
        Ok(e) => sort_of_undated(decls, &e, scope, node),
        Err(NoMemory) => Err(Fault::NoMemory),
    }
}

// The nodes of a part whose expression has the sort that is wanted, else a fault at its own node.
fn need(wanted: Sort, found: Sort, nodes: u32, node: u32) -> Result<u32, Fault>
    ensures sort { Tells result (needed wanted found nodes node) }
    ensures nodes { IfOk result (λ passed. passed ≡ nodes) }
{
    match (wanted, found) {
        (Sort::Truth, Sort::Truth) => Ok(nodes),
        (Sort::Number, Sort::Number) => Ok(nodes),
        (Sort::Truth, Sort::Number) => Err(Fault::At { node }),
        (Sort::Number, Sort::Truth) => Err(Fault::At { node }),
    }
}

// The nodes of code whose own node has a number, among names of these sorts.
#[cycle(sorting)]
fn sorts_of(
    alloc: Global,
    decls: &Decls,
    k: &Code,
    scope: &Scope<Sort>,
    node: u32,
) -> Result<u32, Fault>
    requires { node + nodes_of_code (payoff_code k.now) < 2 ^ 32 }
    ensures sorts { Tells result (sorts_among decls.now (payoff_code k.now) scope.now node) }
    ensures nodes { IfOk result (λ passed. passed ≡ nodes_of_code (payoff_code k.now)) }
{
    match k {
        Code::None | Code::Pay { .. } => Ok(1),
        Code::Add { left, right } => sorts_of_sum(alloc, decls, left, right, scope, node),
        Code::Scale { factor, body } => sorts_of_product(alloc, decls, factor, body, scope, node),
        Code::Let { bound, body } => sorts_of_let(alloc, decls, bound, body, scope, node),
        Code::LoopIf {
            test,
            hit,
            miss,
            ..
        } => sorts_of_loop(alloc, decls, test, hit, miss, scope, node),
        Code::Cut { body, .. } => sorts_of_cut(alloc, decls, body, scope, node),
    }
}

// Of two parts together.
#[cycle(sorting)]
fn sorts_of_sum(
    alloc: Global,
    decls: &Decls,
    left: &Code,
    right: &Code,
    scope: &Scope<Sort>,
    node: u32,
) -> Result<u32, Fault>
    requires { node + nodes_of_code (added left.now right.now) < 2 ^ 32 }
    ensures sorts { Tells result (sorts_among decls.now (added left.now right.now) scope.now node) }
    ensures nodes { IfOk result (λ passed. passed ≡ nodes_of_code (added left.now right.now)) }
{
    let left_nodes = sorts_of(alloc, decls, left, scope, node + 1)?;
    let right_nodes = sorts_of(alloc, decls, right, scope, node + 1 + left_nodes)?;
    Ok(left_nodes + right_nodes + 1)
}

// Of a part that is multiplied by a factor.
#[cycle(sorting)]
fn sorts_of_product(
    alloc: Global,
    decls: &Decls,
    factor: &Vx,
    body: &Code,
    scope: &Scope<Sort>,
    node: u32,
) -> Result<u32, Fault>
    requires { node + nodes_of_code (multiple factor.now body.now) < 2 ^ 32 }
    ensures sorts { Tells result
        (sorts_among decls.now (multiple factor.now body.now) scope.now node) }
    ensures nodes { IfOk result (λ passed. passed ≡ nodes_of_code (multiple factor.now body.now)) }
{
    let found = sort_of_value(alloc, decls, factor, scope, node + 1)?;
    let body_nodes = sorts_of(alloc, decls, body, scope, node + 1 + found.nodes)?;
    need(Sort::Number, found.sort, found.nodes + body_nodes + 1, node)
}

// Of a part with a name for what is bound.
#[cycle(sorting)]
fn sorts_of_let(
    alloc: Global,
    decls: &Decls,
    bound: &Vx,
    body: &Code,
    scope: &Scope<Sort>,
    node: u32,
) -> Result<u32, Fault>
    requires { node + nodes_of_code (naming bound.now body.now) < 2 ^ 32 }
    ensures sorts { Tells result
        (sorts_among decls.now (naming bound.now body.now) scope.now node) }
    ensures nodes { IfOk result (λ passed. passed ≡ nodes_of_code (naming bound.now body.now)) }
{
    let found = sort_of_value(alloc, decls, bound, scope, node + 1)?;
    let inner = Scope::Bound {
        held: found.sort,
        outer: &*scope,
    };
    let body_nodes = sorts_of(alloc, decls, body, &inner, node + 1 + found.nodes)?;
    Ok(found.nodes + body_nodes + 1)
}

// Of two parts of which one is entered by a test.
#[cycle(sorting)]
fn sorts_of_loop(
    alloc: Global,
    decls: &Decls,
    test: &Vx,
    hit: &Code,
    miss: &Code,
    scope: &Scope<Sort>,
    node: u32,
) -> Result<u32, Fault>
    requires { node + nodes_of_code (looping test.now hit.now miss.now) < 2 ^ 32 }
    ensures sorts { Tells result
        (sorts_among decls.now (looping test.now hit.now miss.now) scope.now node) }
    ensures nodes { IfOk result
        (λ passed. passed ≡ nodes_of_code (looping test.now hit.now miss.now)) }
{
    let found = sort_of_value(alloc, decls, test, scope, node + 1)?;
    let after = node + 1 + found.nodes;
    let hit_nodes = sorts_of(alloc, decls, hit, scope, after)?;
    let miss_nodes = sorts_of(alloc, decls, miss, scope, after + hit_nodes)?;
    let nodes = found.nodes + hit_nodes + miss_nodes + 1;
    need(Sort::Truth, found.sort, nodes, node)
}

// Of a part under a `cut`.
#[cycle(sorting)]
fn sorts_of_cut(
    alloc: Global,
    decls: &Decls,
    body: &Code,
    scope: &Scope<Sort>,
    node: u32,
) -> Result<u32, Fault>
    requires { node + nodes_of_code (cutting body.now) < 2 ^ 32 }
    ensures sorts { Tells result (sorts_among decls.now (cutting body.now) scope.now node) }
    ensures nodes { IfOk result (λ passed. passed ≡ nodes_of_code (cutting body.now)) }
{
    let body_nodes = sorts_of(alloc, decls, body, scope, node + 1)?;
    Ok(body_nodes + 1)
}

/// Whether the rule on sorts holds everywhere in code. Where it fails, the answer has the first
/// node at fault, in the order in which the rules of acceptance try nodes. It asks nothing of the
/// setting.
pub fn sorts(alloc: Global, decls: &Decls, _setting: &Setting, k: &Code) -> Result<(), CheckErr>
    requires { nodes_of_code (payoff_code k.now) < 2 ^ 32 }
    ensures { IsCodeVerdict (declarations decls.now) _setting.now.days.items Rule.Sort
        (payoff_code k.now) NothingMore result }
{
    match sorts_of(alloc, decls, k, &Scope::Empty, 0) {
        Ok(_) => Ok(()),
        Err(Fault::At { node }) => Err(CheckErr::Refused {
            rule: Rule::Sort,
            node,
        }),
        Err(Fault::NoMemory) => Err(CheckErr::NoMemory),
    }
}
