//! The rule on sizes, of contracts whose day counts are numbers: a height of at most 200, at most
//! 100,000 nodes, day counts and a reach of at most 100,000 days, at most 1,000,000 days of reach
//! and past together, and a work of at most 10,000,000. The trial of a part answers its size, or
//! the number of the node at fault, counted from the part's own first node; nodes before it are
//! counted only on the way up from a fault, so that no part is visited more than twice.

ghost use Rattle.std.specs.Prelude.{◌≡◌, ◌<◌, ◌≤◌, ◌+◌, ◌^◌, IfOk};
ghost use Rattle.term_model.specs.Terms.{expression, contract};
ghost use Rattle.term_model.specs.Sizes.{nodes, nodes_of_contract, height_of_contract};
ghost use Rattle.term_core.specs.Trying.{FaultIsWithin};
ghost use Rattle.term_model.specs.WellFormed.{HasOnlyNumbers};
ghost use Rattle.scale_check.specs.PartSizes.{IsLimited};
ghost use Rattle.scale_check.specs.SizeTrials.{one_tried, two_tried, three_tried, acc_tried};
ghost use Rattle.scale_check.specs.SizeTrials.{size_tried, behind_tried, contract_tried};
ghost use Rattle.scale_check.specs.SizeVerdicts.{IsSizeVerdict};

use crate::part_sizes::{Size, days_back};
use term_core::{behind, behind_both, behind_contract, behind_node, behind_two};
use term_model::{Contr, Expr, Rule, RuleFault};

// The size of an expression.
#[cycle(sizing)]
fn size_of_expr(e: &Expr) -> Result<Size, u32>
    requires { nodes (expression e.now) < 2 ^ 32 }
    ensures size { result ≡ size_tried (expression e.now) }
    ensures limits { IfOk result IsLimited }
    ensures below { FaultIsWithin (nodes (expression e.now)) result }
{
    match e {
        Expr::Lit { .. } | Expr::Yes { .. } | Expr::Var { .. } => Size::leaf(0).limited(0),
        Expr::Obs { offset, .. } => Size::leaf(days_back(*offset)).limited(0),
        Expr::Neg { of } | Expr::Not { of } | Expr::Widen { of, .. } | Expr::Round { of, .. } =>
            size_over_one(of),
        Expr::Num { left, right, .. }
        | Expr::Cmp { left, right, .. }
        | Expr::Logic { left, right, .. } => size_over_two(left, right),
        Expr::Div { top, below, .. } => size_over_two(top, below),
        Expr::Cond { test, yes, no } => size_over_three(test, yes, no),
        Expr::Acc { body, days, first } => size_over_days(body, *days, first),
    }
}

// Of an operator on one operand.
#[cycle(sizing)]
fn size_over_one(of: &Expr) -> Result<Size, u32>
    requires { nodes (expression of.now) + 1 < 2 ^ 32 }
    ensures size { result ≡ one_tried (size_tried (expression of.now)) }
    ensures limits { IfOk result IsLimited }
    ensures below { FaultIsWithin (nodes (expression of.now) + 1) result }
{
    let part = behind_node(size_of_expr(of))?;
    Size::over_one(part).limited(0)
}

// Of an operator on two operands.
#[cycle(sizing)]
fn size_over_two(left: &Expr, right: &Expr) -> Result<Size, u32>
    requires { nodes (expression left.now) + nodes (expression right.now) + 1 < 2 ^ 32 }
    ensures size { result ≡ two_tried (nodes (expression left.now))
        (size_tried (expression left.now)) (size_tried (expression right.now)) }
    ensures limits { IfOk result IsLimited }
    ensures below { FaultIsWithin
        (nodes (expression left.now) + nodes (expression right.now) + 1) result }
{
    let left_size = behind_node(size_of_expr(left))?;
    let right_size = behind(left, size_of_expr(right))?;
    Size::over_two(left_size, right_size).limited(0)
}

// Of an `if`.
#[cycle(sizing)]
fn size_over_three(test: &Expr, yes: &Expr, no: &Expr) -> Result<Size, u32>
    requires { nodes (expression test.now)
        + nodes (expression yes.now) + nodes (expression no.now) + 1 < 2 ^ 32 }
    ensures size { result ≡ three_tried (nodes (expression test.now)) (nodes (expression yes.now))
        (size_tried (expression test.now)) (size_tried (expression yes.now))
        (size_tried (expression no.now)) }
    ensures limits { IfOk result IsLimited }
    ensures below { FaultIsWithin (nodes (expression test.now)
        + nodes (expression yes.now) + nodes (expression no.now) + 1) result }
{
    let test_size = behind_node(size_of_expr(test))?;
    let yes_size = behind(test, size_of_expr(yes))?;
    let no_size = behind_two(test, yes, size_of_expr(no))?;
    Size::over_three(test_size, yes_size, no_size).limited(0)
}

// Of an accumulator, whose start is tried before its body.
#[cycle(sizing)]
fn size_over_days(body: &Expr, days: u32, first: &Expr) -> Result<Size, u32>
    requires { nodes (expression body.now) + nodes (expression first.now) + 1 < 2 ^ 32 }
    ensures size { result ≡ acc_tried (nodes (expression body.now)) days
        (size_tried (expression first.now)) (size_tried (expression body.now)) }
    ensures limits { IfOk result IsLimited }
    ensures below { FaultIsWithin
        (nodes (expression body.now) + nodes (expression first.now) + 1) result }
{
    let first_size = behind(body, size_of_expr(first))?;
    let body_size = behind_node(size_of_expr(body))?;
    Size::over_days(body_size, days, first_size).limited(days)
}

// The size of a contract.
#[cycle(sized)]
fn try_size(c: &Contr) -> Result<Size, u32>
    requires { nodes_of_contract (contract c.now) < 2 ^ 32 }
    ensures size { result ≡ contract_tried (contract c.now) }
    ensures limits { IfOk result IsLimited }
    ensures below { FaultIsWithin (nodes_of_contract (contract c.now)) result }
{
    match c {
        Contr::Zero | Contr::Pay { .. } => Size::unit().limited(0),
        Contr::Both { left, right } => {
            let left_size = behind_node(try_size(left))?;
            let right_size = behind_contract(left, try_size(right))?;
            Size::together(left_size, right_size).limited(0)
        }
        Contr::Scale { factor, body } => try_behind(factor, body),
        Contr::Let { bound, body } => try_behind(bound, body),
        Contr::After { days, body } => {
            let count = days.number();
            let body_size = behind_node(try_size(body))?;
            Size::delayed(count, body_size).limited(count)
        }
        Contr::Within {
            test,
            days,
            hit,
            miss,
        } => {
            let count = days.number();
            let test_size = behind_node(size_of_expr(test))?;
            let hit_size = behind(test, try_size(hit))?;
            let miss_size = behind_both(test, hit, try_size(miss))?;
            Size::tested(test_size, count, hit_size, miss_size).limited(count)
        }
    }
}

// Of an expression and the contract that it stands before.
#[cycle(sized)]
fn try_behind(e: &Expr, c: &Contr) -> Result<Size, u32>
    requires { nodes (expression e.now) + nodes_of_contract (contract c.now) + 1 < 2 ^ 32 }
    ensures size { result ≡ behind_tried (nodes (expression e.now))
        (size_tried (expression e.now)) (contract_tried (contract c.now)) }
    ensures limits { IfOk result IsLimited }
    ensures below { FaultIsWithin
        (nodes (expression e.now) + nodes_of_contract (contract c.now) + 1) result }
{
    let expr_size = behind_node(size_of_expr(e))?;
    let contr_size = behind(e, try_size(c))?;
    Size::together(expr_size, contr_size).limited(0)
}

/// The reach of a contract, the days by which its latest part may stand later than it, where the
/// rule on sizes holds everywhere in it, under whatever declarations. Where it fails, the answer
/// has the first node at fault, in the order in which the rules of acceptance try nodes. It takes
/// no memory.
pub fn sizes(c: &Contr) -> Result<u32, RuleFault>
    requires low { height_of_contract (contract c.now) ≤ 1_000 }
    requires small { nodes_of_contract (contract c.now) < 2 ^ 32 }
    requires numbers { HasOnlyNumbers (contract c.now) }
    ensures { IsSizeVerdict (contract c.now) result }
{
    match try_size(c) {
        Ok(size) => Ok(size.reach_in_days()),
        Err(node) => Err(RuleFault {
            rule: Rule::Size,
            node,
        }),
    }
}
