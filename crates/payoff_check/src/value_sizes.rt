//! The rule on sizes in value expressions: a height of at most 400, at most 200,000 nodes,
//! accumulators over at most 100,000 days, a work of at most 10,000,000, and dates from -2,000,000
//! to 2,000,000 days. Nodes before a node at fault are counted only on the way up from it, so that
//! no part is visited more than twice.

ghost use Rattle.std.specs.Prelude.{◌≡◌, ◌<◌, ◌+◌, ◌^◌, IfOk, IfErr};
ghost use Rattle.term_model.specs.Sizes.{nodes};
ghost use Rattle.term_core.specs.Trying.{FaultIsWithin, moved};
ghost use Rattle.payoff_check.specs.Trials.{undated_value};
ghost use Rattle.payoff_check.specs.SizeTrials.{IsLimited, acc_tried, nodes_at, one_tried, three_tried, tried_at, two_tried};

use crate::days::{day_at, is_date};
use crate::part_sizes::ValueSize;
use payoff_terms::Vx;
use term_core::behind_node;

/// The nodes of a value expression.
pub fn nodes_in_value(v: &Vx) -> u32
    requires { nodes (undated_value v.now) < 2 ^ 32 }
    ensures { result ≡ nodes (undated_value v.now) }
{
    match v {
        Vx::Lit { .. } | Vx::Yes { .. } | Vx::Var { .. } | Vx::Model { .. } => 1,
        Vx::Neg { of } => nodes_in_value(of) + 1,
        Vx::Not { of } => nodes_in_value(of) + 1,
        Vx::Widen { of, .. } => nodes_in_value(of) + 1,
        Vx::Round { of, .. } => nodes_in_value(of) + 1,
        Vx::Num { left, right, .. } => nodes_in_value(left) + nodes_in_value(right) + 1,
        Vx::Cmp { left, right, .. } => nodes_in_value(left) + nodes_in_value(right) + 1,
        Vx::Logic { left, right, .. } => nodes_in_value(left) + nodes_in_value(right) + 1,
        Vx::Div { top, below, .. } => nodes_in_value(top) + nodes_in_value(below) + 1,
        Vx::Acc { body, first, .. } => nodes_in_value(body) + nodes_in_value(first) + 1,
        Vx::Cond { test, yes, no } => {
            nodes_in_value(test) + nodes_in_value(yes) + nodes_in_value(no) + 1
        }
    }
}

/// The size of a value expression at a setting, or the number of its first node that breaks the
/// rule on sizes, counted from its own first node.
#[cycle(sizing)]
pub fn size_of_value(setting: &[u32], e: &Vx) -> Result<ValueSize, u32>
    requires { nodes_at setting.now e.now < 2 ^ 32 }
    ensures size { result ≡ tried_at setting.now e.now }
    ensures limits { IfOk result IsLimited }
    ensures below { FaultIsWithin (nodes_at setting.now e.now) result }
{
    match e {
        Vx::Lit { .. } => ValueSize::leaf().limited(0),
        Vx::Yes { .. } => ValueSize::leaf().limited(0),
        Vx::Var { .. } => ValueSize::leaf().limited(0),
        Vx::Model { date, .. } => ValueSize::dated(is_date(day_at(setting, date))),
        Vx::Neg { of } => size_over_one(setting, of),
        Vx::Not { of } => size_over_one(setting, of),
        Vx::Widen { of, .. } => size_over_one(setting, of),
        Vx::Round { of, .. } => size_over_one(setting, of),
        Vx::Num { left, right, .. } => size_over_two(setting, left, right),
        Vx::Cmp { left, right, .. } => size_over_two(setting, left, right),
        Vx::Logic { left, right, .. } => size_over_two(setting, left, right),
        Vx::Div { top, below, .. } => size_over_two(setting, top, below),
        Vx::Cond { test, yes, no } => size_over_three(setting, test, yes, no),
        Vx::Acc { body, days, first } => size_over_days(setting, body, *days, first),
    }
}

// Of an operator on one operand.
#[cycle(sizing)]
fn size_over_one(setting: &[u32], of: &Vx) -> Result<ValueSize, u32>
    requires { nodes_at setting.now of.now + 1 < 2 ^ 32 }
    ensures size { result ≡ one_tried (tried_at setting.now of.now) }
    ensures limits { IfOk result IsLimited }
    ensures below { FaultIsWithin (nodes_at setting.now of.now + 1) result }
{
    let part = behind_node(size_of_value(setting, of))?;
    part.over_one().limited(0)
}

// Of an operator on two operands.
#[cycle(sizing)]
#[tactic(auto, using(crate::proofs::DateFreeFacts::nodes_undated))]
fn size_over_two(setting: &[u32], left: &Vx, right: &Vx) -> Result<ValueSize, u32>
    requires { nodes_at setting.now left.now + nodes_at setting.now right.now + 1 < 2 ^ 32 }
    ensures size { result ≡ two_tried (nodes_at setting.now left.now)
        (tried_at setting.now left.now) (tried_at setting.now right.now) }
    ensures limits { IfOk result IsLimited }
    ensures below { FaultIsWithin
        (nodes_at setting.now left.now + nodes_at setting.now right.now + 1) result }
{
    let left_size = behind_node(size_of_value(setting, left))?;
    let right_size = behind_value(left, size_of_value(setting, right))?;
    left_size.over_two(right_size).limited(0)
}

// Of an `if`.
#[cycle(sizing)]
#[tactic(auto, using(crate::proofs::DateFreeFacts::nodes_undated))]
fn size_over_three(setting: &[u32], test: &Vx, yes: &Vx, no: &Vx) -> Result<ValueSize, u32>
    requires { nodes_at setting.now test.now + nodes_at setting.now yes.now
        + nodes_at setting.now no.now + 1 < 2 ^ 32 }
    ensures size { result ≡ three_tried
        (nodes_at setting.now test.now) (nodes_at setting.now yes.now)
        (tried_at setting.now test.now) (tried_at setting.now yes.now)
        (tried_at setting.now no.now) }
    ensures limits { IfOk result IsLimited }
    ensures below { FaultIsWithin (nodes_at setting.now test.now + nodes_at setting.now yes.now
        + nodes_at setting.now no.now + 1) result }
{
    let test_size = behind_node(size_of_value(setting, test))?;
    let yes_size = behind_value(test, size_of_value(setting, yes))?;
    let no_size = behind_two_values(test, yes, size_of_value(setting, no))?;
    test_size.over_three(yes_size, no_size).limited(0)
}

// Of an accumulator, whose start is tried before its body.
#[cycle(sizing)]
#[tactic(auto, using(crate::proofs::DateFreeFacts::nodes_undated))]
fn size_over_days(setting: &[u32], body: &Vx, days: u32, first: &Vx) -> Result<ValueSize, u32>
    requires { nodes_at setting.now body.now + nodes_at setting.now first.now + 1 < 2 ^ 32 }
    ensures size { result ≡ acc_tried (nodes_at setting.now body.now) days
        (tried_at setting.now first.now) (tried_at setting.now body.now) }
    ensures limits { IfOk result IsLimited }
    ensures below { FaultIsWithin
        (nodes_at setting.now body.now + nodes_at setting.now first.now + 1) result }
{
    let first_size = behind_value(body, size_of_value(setting, first))?;
    let body_size = behind_node(size_of_value(setting, body))?;
    body_size.over_days(days, first_size).limited(days)
}

// The answer of the part that follows a value expression.
fn behind_value(before: &Vx, answer: Result<ValueSize, u32>) -> Result<ValueSize, u32>
    requires small { nodes (undated_value before.now) < 2 ^ 32 }
    requires room { IfErr answer (λ node. 1 + nodes (undated_value before.now) + node < 2 ^ 32) }
    ensures { result ≡ moved (1 + nodes (undated_value before.now)) answer }
{
    match answer {
        Ok(size) => Ok(size),
        Err(node) => Err(1 + nodes_in_value(before) + node),
    }
}

// The answer of the part that follows two value expressions.
fn behind_two_values(
    first: &Vx,
    second: &Vx,
    answer: Result<ValueSize, u32>,
) -> Result<ValueSize, u32>
    requires small { nodes (undated_value first.now) + nodes (undated_value second.now) < 2 ^ 32 }
    requires room { IfErr answer (λ node.
        nodes (undated_value first.now) + (1 + nodes (undated_value second.now) + node) < 2 ^ 32) }
    ensures { result ≡ moved (nodes (undated_value first.now))
        (moved (1 + nodes (undated_value second.now)) answer) }
{
    match answer {
        Ok(size) => Ok(size),
        Err(node) => Err(nodes_in_value(first) + (1 + nodes_in_value(second) + node)),
    }
}
