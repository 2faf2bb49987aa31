//! The rule on sorts: every expression is a number or a truth value, every factor is a number and
//! every test is a truth value. The trial of a part answers its sort, or the number of the node at
//! fault, counted from the part's own first node; nodes before it are counted only on the way up
//! from a fault, so that no part is visited more than twice. A function pays at entry for the
//! locals of all its arms, so each form with parts has one of its own.

ghost use Rattle.std.specs.Prelude.{◌≡◌, ◌<◌, ◌≤◌, ◌+◌, ◌^◌, IfErr};
ghost use Rattle.term_model.specs.Declarations.{declarations};
ghost use Rattle.term_model.specs.declared.rules.Rule.{Rule};
ghost use Rattle.term_model.specs.Terms.{expression, contract, Both, Cond, Let, Scale};
ghost use Rattle.term_model.specs.Sizes.{nodes, nodes_of_contract, height_of_contract};
ghost use Rattle.term_model.specs.Scopes.{held_in};
ghost use Rattle.term_core.specs.Trying.{FaultIsWithin, or_here};
ghost use Rattle.time_types.specs.ScopedSorts.{sort_within, sorts_within, sorts_of_branches};
ghost use Rattle.time_types.specs.ScopedSorts as scoped;
ghost use Rattle.time_types.specs.SortTrials.{expected, required, one_tried, two_tried, sort_tried};
ghost use Rattle.term_model.specs.Verdicts.{IsVerdict};

use crate::observed_sorts::{Sort, sort_observed};
use std::alloc::Global;
use term_core::{behind, behind_both, behind_contract, behind_node, behind_two};
use term_model::{CheckErr, Contr, Decls, Expr, Rule, Scope, held_at};

// The answer where a sort is as wanted, else a fault here.
fn expect(wanted: Sort, found: Sort, answer: Sort) -> Result<Sort, u32>
    ensures sort { result ≡ expected wanted found answer }
    ensures here { IfErr result (λ node. node ≡ 0) }
{
    match (wanted, found) {
        (Sort::Truth, Sort::Truth) => Ok(answer),
        (Sort::Number, Sort::Number) => Ok(answer),
        (Sort::Truth, Sort::Number) => Err(0),
        (Sort::Number, Sort::Truth) => Err(0),
    }
}

// A sort that was looked for, else a fault here.
fn found(sort: Option<Sort>) -> Result<Sort, u32>
    ensures sort { result ≡ or_here sort }
    ensures here { IfErr result (λ node. node ≡ 0) }
{
    match sort {
        Some(sort) => Ok(sort),
        None => Err(0),
    }
}

/// The sort of an expression among names of these sorts, or the number of its first node that has
/// none, counted from the expression's own first node.
#[cycle(sorting)]
pub fn sort_of_expr(decls: &Decls, e: &Expr, scope: &Scope<Sort>) -> Result<Sort, u32>
    requires { nodes (expression e.now) < 2 ^ 32 }
    ensures sort { result ≡ sort_within decls.now (expression e.now) scope.now }
    ensures below { FaultIsWithin (nodes (expression e.now)) result }
{
    match e {
        Expr::Lit { .. } => Ok(Sort::Number),
        Expr::Yes { .. } => Ok(Sort::Truth),
        Expr::Var { back } => found(held_at(scope, *back)),
        Expr::Obs { label, .. } => found(sort_observed(decls, *label)),
        Expr::Neg { of } => sort_of_one(decls, of, Sort::Number, Sort::Number, scope),
        Expr::Not { of } => sort_of_one(decls, of, Sort::Truth, Sort::Truth, scope),
        Expr::Widen { of, .. } => sort_of_one(decls, of, Sort::Number, Sort::Number, scope),
        Expr::Round { of, .. } => sort_of_one(decls, of, Sort::Number, Sort::Number, scope),
        Expr::Num { left, right, .. } => {
            sort_of_two(decls, left, right, Sort::Number, Sort::Number, scope)
        }
        Expr::Cmp { left, right, .. } => {
            sort_of_two(decls, left, right, Sort::Number, Sort::Truth, scope)
        }
        Expr::Logic { left, right, .. } => {
            sort_of_two(decls, left, right, Sort::Truth, Sort::Truth, scope)
        }
        Expr::Div { top, below, .. } => {
            sort_of_two(decls, top, below, Sort::Number, Sort::Number, scope)
        }
        Expr::Cond { test, yes, no } => sort_of_choice(decls, test, yes, no, scope),
        Expr::Acc { body, first, .. } => sort_of_steps(decls, body, first, scope),
    }
}

// Of an operator on one operand.
#[cycle(sorting)]
fn sort_of_one(
    decls: &Decls,
    of: &Expr,
    wanted: Sort,
    answer: Sort,
    scope: &Scope<Sort>,
) -> Result<Sort, u32>
    requires { nodes (expression of.now) + 1 < 2 ^ 32 }
    ensures sort { result ≡ one_tried wanted answer
        (sort_tried (declarations decls.now) (expression of.now) (held_in scope.now)) }
    ensures below { FaultIsWithin (nodes (expression of.now) + 1) result }
{
    let sort = behind_node(sort_of_expr(decls, of, scope))?;
    expect(wanted, sort, answer)
}

// Of an operator on two operands.
#[cycle(sorting)]
fn sort_of_two(
    decls: &Decls,
    left: &Expr,
    right: &Expr,
    wanted: Sort,
    answer: Sort,
    scope: &Scope<Sort>,
) -> Result<Sort, u32>
    requires { nodes (expression left.now) + nodes (expression right.now) + 1 < 2 ^ 32 }
    ensures sort { result ≡ two_tried wanted answer (nodes (expression left.now))
        (sort_tried (declarations decls.now) (expression left.now) (held_in scope.now))
        (sort_tried (declarations decls.now) (expression right.now) (held_in scope.now)) }
    ensures below { FaultIsWithin
        (nodes (expression left.now) + nodes (expression right.now) + 1) result }
{
    let left_sort = behind_node(sort_of_expr(decls, left, scope))?;
    let right_sort = behind(left, sort_of_expr(decls, right, scope))?;
    expect(wanted, left_sort, answer)?;
    expect(wanted, right_sort, answer)
}

// Of one of two, by a test.
#[cycle(sorting)]
fn sort_of_choice(
    decls: &Decls,
    test: &Expr,
    yes: &Expr,
    no: &Expr,
    scope: &Scope<Sort>,
) -> Result<Sort, u32>
    requires { nodes (expression test.now) + nodes (expression yes.now)
        + nodes (expression no.now) + 1 < 2 ^ 32 }
    ensures sort { result ≡ sort_within decls.now
        (Cond (expression test.now) (expression yes.now) (expression no.now)) scope.now }
    ensures below { FaultIsWithin (nodes (expression test.now) + nodes (expression yes.now)
        + nodes (expression no.now) + 1) result }
{
    let test_sort = behind_node(sort_of_expr(decls, test, scope))?;
    let yes_sort = behind(test, sort_of_expr(decls, yes, scope))?;
    let no_sort = behind_two(test, yes, sort_of_expr(decls, no, scope))?;
    expect(Sort::Truth, test_sort, Sort::Truth)?;
    expect(yes_sort, no_sort, yes_sort)
}

// Of an accumulator.
#[cycle(sorting)]
fn sort_of_steps(decls: &Decls, body: &Expr, first: &Expr, scope: &Scope<Sort>) -> Result<Sort, u32>
    requires { nodes (expression body.now) + nodes (expression first.now) + 1 < 2 ^ 32 }
    ensures sort { result ≡ scoped.sort_of_steps decls.now body.now first.now scope.now }
    ensures below { FaultIsWithin
        (nodes (expression body.now) + nodes (expression first.now) + 1) result }
{
    let sort = behind(body, sort_of_expr(decls, first, scope))?;
    let inner = Scope::Bound {
        held: sort,
        outer: &*scope,
    };
    let body_sort = behind_node(sort_of_expr(decls, body, &inner))?;
    expect(sort, body_sort, sort)
}

// A sort that has to be one, else a fault here.
fn require(wanted: Sort, sort: Sort) -> Result<(), u32>
    ensures sort { result ≡ required wanted sort }
    ensures here { IfErr result (λ node. node ≡ 0) }
{
    expect(wanted, sort, sort)?;
    Ok(())
}

// The number of a contract's first node at fault, among names of these sorts.
#[cycle(trying)]
fn try_sorts(decls: &Decls, c: &Contr, scope: &Scope<Sort>) -> Result<(), u32>
    requires { nodes_of_contract (contract c.now) < 2 ^ 32 }
    ensures sorts { result ≡ sorts_within decls.now (contract c.now) scope.now }
    ensures below { FaultIsWithin (nodes_of_contract (contract c.now)) result }
{
    match c {
        Contr::Zero => Ok(()),
        Contr::Pay { .. } => Ok(()),
        Contr::Both { left, right } => try_both(decls, left, right, scope),
        Contr::Scale { factor, body } => try_scale(decls, factor, body, scope),
        Contr::After { body, .. } => behind_node(try_sorts(decls, body, scope)),
        Contr::Let { bound, body } => try_let(decls, bound, body, scope),
        Contr::Within {
            test,
            hit,
            miss,
            ..
        } => try_within(decls, test, hit, miss, scope),
    }
}

// Of two contracts together.
#[cycle(trying)]
fn try_both(decls: &Decls, left: &Contr, right: &Contr, scope: &Scope<Sort>) -> Result<(), u32>
    requires { nodes_of_contract (contract left.now)
        + nodes_of_contract (contract right.now) + 1 < 2 ^ 32 }
    ensures sorts { result ≡ sorts_within decls.now
        (Both (contract left.now) (contract right.now)) scope.now }
    ensures below { FaultIsWithin (nodes_of_contract (contract left.now)
        + nodes_of_contract (contract right.now) + 1) result }
{
    behind_node(try_sorts(decls, left, scope))?;
    behind_contract(left, try_sorts(decls, right, scope))
}

// Of a body that is multiplied by a factor.
#[cycle(trying)]
fn try_scale(decls: &Decls, factor: &Expr, body: &Contr, scope: &Scope<Sort>) -> Result<(), u32>
    requires { nodes (expression factor.now) + nodes_of_contract (contract body.now) + 1 < 2 ^ 32 }
    ensures sorts { result ≡ sorts_within decls.now
        (Scale (expression factor.now) (contract body.now)) scope.now }
    ensures below { FaultIsWithin
        (nodes (expression factor.now) + nodes_of_contract (contract body.now) + 1) result }
{
    let sort = behind_node(sort_of_expr(decls, factor, scope))?;
    behind(factor, try_sorts(decls, body, scope))?;
    require(Sort::Number, sort)
}

// Of a body with a name for what is bound.
#[cycle(trying)]
fn try_let(decls: &Decls, bound: &Expr, body: &Contr, scope: &Scope<Sort>) -> Result<(), u32>
    requires { nodes (expression bound.now) + nodes_of_contract (contract body.now) + 1 < 2 ^ 32 }
    ensures sorts { result ≡ sorts_within decls.now
        (Let (expression bound.now) (contract body.now)) scope.now }
    ensures below { FaultIsWithin
        (nodes (expression bound.now) + nodes_of_contract (contract body.now) + 1) result }
{
    let sort = behind_node(sort_of_expr(decls, bound, scope))?;
    let inner = Scope::Bound {
        held: sort,
        outer: &*scope,
    };
    behind(bound, try_sorts(decls, body, &inner))
}

// Of the branches of a test.
#[cycle(trying)]
fn try_within(
    decls: &Decls,
    test: &Expr,
    hit: &Contr,
    miss: &Contr,
    scope: &Scope<Sort>,
) -> Result<(), u32>
    requires { nodes (expression test.now) + nodes_of_contract (contract hit.now)
        + nodes_of_contract (contract miss.now) + 1 < 2 ^ 32 }
    ensures sorts { result ≡ sorts_of_branches decls.now test.now hit.now miss.now scope.now }
    ensures below { FaultIsWithin
        (nodes (expression test.now) + nodes_of_contract (contract hit.now)
        + nodes_of_contract (contract miss.now) + 1) result }
{
    let sort = behind_node(sort_of_expr(decls, test, scope))?;
    behind(test, try_sorts(decls, hit, scope))?;
    behind_both(test, hit, try_sorts(decls, miss, scope))?;
    require(Sort::Truth, sort)
}

/// Whether the rule on sorts holds everywhere in a contract. Where it fails, the answer has the
/// first node at fault, in the order in which the rules of acceptance try nodes. It takes no
/// memory, which its clause leaves open.
pub fn sorts(alloc: Global, decls: &Decls, c: &Contr) -> Result<(), CheckErr>
    requires low { height_of_contract (contract c.now) ≤ 1_000 }
    requires small { nodes_of_contract (contract c.now) < 2 ^ 32 }
    ensures { IsVerdict (declarations decls.now) Rule.Sort (contract c.now) (λ _. Unit {0}) result }
{
    match try_sorts(decls, c, &Scope::Empty) {
        Ok(()) => Ok(()),
        Err(node) => Err(CheckErr::Refused {
            rule: Rule::Sort,
            node,
        }),
    }
}
