//! The rule on sizes at a setting: a height of at most 400, at most 200,000 nodes, a work of at
//! most 10,000,000, loops of at most 100,000 days one within another, and every date within its
//! range. A function pays at entry for the locals of all its arms, so each form of code with parts
//! has one of its own.

ghost use Rattle.std.specs.Prelude.{◌≡◌, ◌<◌, ◌+◌, ◌^◌, IfOk};
ghost use Rattle.term_model.specs.Declarations.{declarations};
ghost use Rattle.term_model.specs.declared.rules.Rule.{Rule};
ghost use Rattle.term_model.specs.Sizes.{nodes};
ghost use Rattle.term_core.specs.Trying.{moved};
ghost use Rattle.payoff_terms.specs.TemplateDates.{date, day_of};
ghost use Rattle.payoff_terms.specs.Code.{payoff_code};
ghost use Rattle.payoff_terms.specs.CodeAcceptance as rule;
ghost use Rattle.payoff_terms.specs.CodeSizes.{as_count, nodes_of_code};
ghost use Rattle.payoff_check.specs.Parts.{added, multiple, looping_to, cutting_on};
ghost use Rattle.payoff_check.specs.Trials.{undated_value};
ghost use Rattle.payoff_check.specs.Verdicts.{IsCodeVerdict, NothingMore};
ghost use Rattle.payoff_check.specs.SizeTrials.{IsLimited, IsLimitedCode, dated_code, looped};
ghost use Rattle.payoff_check.specs.SizeTrials.{sizes_tried, tried_at};

use crate::days::{day_at, is_date, is_upto};
use crate::part_sizes::{CodeSize, ValueSize};
use crate::value_sizes::size_of_value;
use payoff_terms::{Code, DateExpr, Vx};
use term_model::{CheckErr, Decls, Rule, Setting};

// The size of a value expression whose first node has a number.
fn size_at(setting: &[u32], v: &Vx, node: u32) -> Result<ValueSize, u32>
    requires { node + nodes (undated_value v.now) < 2 ^ 32 }
    ensures size { result ≡ moved node (tried_at setting.now v.now) }
    ensures limits { IfOk result IsLimited }
    ensures nodes { IfOk result (λ size. size.nodes ≡ nodes (undated_value v.now)) }
{
    match size_of_value(setting, v) {
        Ok(size) => Ok(size),
        Err(part) => Err(node + part),
    }
}

// A size within the limits, where the date at its node is within its range.
fn dated(setting: &[u32], on: &DateExpr, size: CodeSize, node: u32) -> Result<CodeSize, u32>
    ensures size { result ≡ dated_code (rule.is_date (day_of setting.now (date on.now))) size node }
    ensures limits { IfOk result IsLimitedCode }
    ensures nodes { IfOk result (λ found. found.nodes ≡ size.nodes) }
{
    if is_date(day_at(setting, on)) {
        size.limited(node)
    } else {
        Err(node)
    }
}

// The size of a `loop` from those of its parts, where its last day is within its range.
fn looped_to(
    day: i128,
    test: ValueSize,
    hit: CodeSize,
    miss: CodeSize,
    node: u32,
) -> Result<CodeSize, u32>
    requires test { IsLimited test }
    requires hit { IsLimitedCode hit }
    requires miss { IsLimitedCode miss }
    ensures size { result
        ≡ dated_code (rule.is_upto day) (looped test (as_count day) hit miss) node }
    ensures limits { IfOk result IsLimitedCode }
    ensures nodes { IfOk result (λ found. found.nodes ≡ test.nodes + hit.nodes + miss.nodes + 1) }
{
    if is_upto(day) {
        hit.looped(test, day as u32, miss).limited(node)
    } else {
        Err(node)
    }
}

// The size of code whose own node has a number.
#[cycle(sizing)]
fn sizes_of(setting: &[u32], k: &Code, node: u32) -> Result<CodeSize, u32>
    requires { node + nodes_of_code (payoff_code k.now) < 2 ^ 32 }
    ensures size { result ≡ sizes_tried setting.now (payoff_code k.now) node }
    ensures limits { IfOk result IsLimitedCode }
    ensures nodes { IfOk result (λ found. found.nodes ≡ nodes_of_code (payoff_code k.now)) }
{
    match k {
        Code::None => CodeSize::unit().limited(node),
        Code::Pay { date, .. } => dated(setting, date, CodeSize::unit(), node),
        Code::Add { left, right } => size_of_sum(setting, left, right, node),
        Code::Scale { factor, body } => size_behind(setting, factor, body, node),
        Code::Let { bound, body } => size_behind(setting, bound, body, node),
        Code::LoopIf {
            test,
            upto,
            hit,
            miss,
        } => size_of_loop(setting, test, upto, hit, miss, node),
        Code::Cut { date, body } => size_of_cut(setting, date, body, node),
    }
}

// Of two parts together.
#[cycle(sizing)]
fn size_of_sum(setting: &[u32], left: &Code, right: &Code, node: u32) -> Result<CodeSize, u32>
    requires { node + nodes_of_code (added left.now right.now) < 2 ^ 32 }
    ensures size { result ≡ sizes_tried setting.now (added left.now right.now) node }
    ensures limits { IfOk result IsLimitedCode }
    ensures nodes { IfOk result (λ found. found.nodes ≡ nodes_of_code (added left.now right.now)) }
{
    let one = sizes_of(setting, left, node + 1)?;
    let two = sizes_of(setting, right, node + 1 + one.nodes)?;
    one.together(two).limited(node)
}

// Of a part behind a value expression.
#[cycle(sizing)]
fn size_behind(setting: &[u32], value: &Vx, body: &Code, node: u32) -> Result<CodeSize, u32>
    requires { node + nodes_of_code (multiple value.now body.now) < 2 ^ 32 }
    ensures size { result ≡ sizes_tried setting.now (multiple value.now body.now) node }
    ensures limits { IfOk result IsLimitedCode }
    ensures nodes { IfOk result
        (λ found. found.nodes ≡ nodes_of_code (multiple value.now body.now)) }
{
    let value_size = size_at(setting, value, node + 1)?;
    let part = sizes_of(setting, body, node + 1 + value_size.nodes)?;
    part.behind(value_size).limited(node)
}

// Of two parts of which one is entered by a test.
#[cycle(sizing)]
fn size_of_loop(
    setting: &[u32],
    test: &Vx,
    upto: &DateExpr,
    hit: &Code,
    miss: &Code,
    node: u32,
) -> Result<CodeSize, u32>
    requires { node + nodes_of_code (looping_to upto.now test.now hit.now miss.now) < 2 ^ 32 }
    ensures size { result
        ≡ sizes_tried setting.now (looping_to upto.now test.now hit.now miss.now) node }
    ensures limits { IfOk result IsLimitedCode }
    ensures nodes { IfOk result (λ found.
        found.nodes ≡ nodes_of_code (looping_to upto.now test.now hit.now miss.now)) }
{
    let value = size_at(setting, test, node + 1)?;
    let after = node + 1 + value.nodes;
    let one = sizes_of(setting, hit, after)?;
    let two = sizes_of(setting, miss, after + one.nodes)?;
    looped_to(day_at(setting, upto), value, one, two, node)
}

// Of a part under a `cut`.
#[cycle(sizing)]
fn size_of_cut(setting: &[u32], date: &DateExpr, body: &Code, node: u32) -> Result<CodeSize, u32>
    requires { node + nodes_of_code (cutting_on date.now body.now) < 2 ^ 32 }
    ensures size { result ≡ sizes_tried setting.now (cutting_on date.now body.now) node }
    ensures limits { IfOk result IsLimitedCode }
    ensures nodes { IfOk result
        (λ found. found.nodes ≡ nodes_of_code (cutting_on date.now body.now)) }
{
    let part = sizes_of(setting, body, node + 1)?;
    dated(setting, date, part.over(), node)
}

/// Whether the rule on sizes holds everywhere in code at a setting. Where it fails, the answer has
/// the first node at fault, in the order in which the rules of acceptance try nodes. It asks
/// nothing of the declarations.
pub fn sizes(_decls: &Decls, setting: &Setting, k: &Code) -> Result<(), CheckErr>
    requires { nodes_of_code (payoff_code k.now) < 2 ^ 32 }
    ensures { IsCodeVerdict (declarations _decls.now) setting.now.days.items Rule.Size
        (payoff_code k.now) NothingMore result }
{
    match sizes_of(setting.days.as_slice(), k, 0) {
        Ok(_) => Ok(()),
        Err(node) => Err(CheckErr::Refused {
            rule: Rule::Size,
            node,
        }),
    }
}
