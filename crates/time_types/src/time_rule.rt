//! The rule on times: a factor is known when its contract starts, and a test on the day on which it
//! is first tried. The trial of a contract answers its start, or the number of the node at fault,
//! counted from the contract's own first node; nodes before it are counted only on the way up from
//! a fault, so that no part is visited more than twice.

ghost use Rattle.std.specs.Prelude.{◌≡◌, ◌<◌, ◌≤◌, ◌+◌, ◌^◌, pos, ◌+ℤ◌, ◌-ℤ◌, unsigned_abs, IfErr};
ghost use Rattle.std.specs.Prelude.{slice_get};
ghost use Rattle.term_model.specs.Declarations.{declarations};
ghost use Rattle.term_model.specs.declared.rules.Rule.{Rule};
ghost use Rattle.term_model.specs.Terms.{expression, contract};
ghost use Rattle.term_model.specs.Sizes.{height, nodes_of_contract, height_of_contract};
ghost use Rattle.term_model.specs.Times.{IsStart};
ghost use Rattle.term_model.specs.WellFormed.{IsClosed, HasOnlyNumbers};
ghost use Rattle.term_model.specs.Acceptance.{Meets};
ghost use Rattle.term_model.specs.Scopes.{held_in};
ghost use Rattle.term_core.specs.Trying.{FaultIsWithin};
ghost use Rattle.time_types.specs.Starts.{start_day};
ghost use Rattle.time_types.specs.TimeTrials.{HasRoom, later, name_known, known_from, in_time};
ghost use Rattle.time_types.specs.TimeTrials.{start_tried};
ghost use Rattle.term_model.specs.Verdicts.{IsVerdict};

use crate::starts::{Start, earlier_of, is_known};
use std::alloc::Global;
use term_core::{behind, behind_both, behind_contract, behind_node};
use term_model::{
    CheckErr, Contr, Decls, Expr, Rule, Scope, day_read, days_earlier, days_later, held_at,
};

// The day from which both are known.
fn later_of(a: Option<i64>, b: Option<i64>) -> Option<i64>
    ensures { result ≡ later a b }
{
    match (a, b) {
        (None, _) => b,
        (Some(_), None) => a,
        (Some(a), Some(b)) => Some(a.max(b)),
    }
}

// The day on which a part of a contract stands, counted from the day on which the whole stands.
#[derive(Clone, Copy)]
struct PartDay {
    number: i64,
}

// The day on which an observable is read.
fn read_on(day: PartDay, offset: i32) -> i64
    requires { HasRoom 1 day.number }
    ensures { result ≡ day.number +ℤ offset }
{
    day_read(day.number, offset)
}

fn days_before(day: PartDay, days: u32) -> PartDay
    requires { HasRoom 1 day.number }
    ensures number { result.number ≡ day.number -ℤ pos days }
    ensures near { unsigned_abs result.number ≤ unsigned_abs day.number + 2 ^ 32 }
{
    PartDay {
        number: days_earlier(day.number, days),
    }
}

fn days_after(day: PartDay, days: u32) -> PartDay
    requires { HasRoom 1 day.number }
    ensures number { result.number ≡ day.number +ℤ pos days }
    ensures near { unsigned_abs result.number ≤ unsigned_abs day.number + 2 ^ 32 }
{
    PartDay {
        number: days_later(day.number, days),
    }
}

// The day from which a name is known that is bound around an expression. Days are those of the
// whole contract, so that a scope serves parts that stand on later and on earlier days as it is.
fn known_at(scope: &Scope<Option<i64>>, back: u32) -> Option<i64>
    ensures { result ≡ name_known (slice_get (held_in scope.now) back) }
{
    match held_at(scope, back) {
        Some(known) => known,
        None => None,
    }
}

// The day from which an expression is known that stands on a day.
#[cycle(knowing)]
fn known(e: &Expr, scope: &Scope<Option<i64>>, day: PartDay) -> Option<i64>
    requires { HasRoom (height (expression e.now)) day.number }
    ensures { result ≡ known_from day.number (held_in scope.now) (expression e.now) }
{
    match e {
        Expr::Lit { .. } => None,
        Expr::Yes { .. } => None,
        Expr::Var { back } => known_at(scope, *back),
        Expr::Obs { offset, .. } => Some(read_on(day, *offset)),
        Expr::Neg { of } => known(of, scope, day),
        Expr::Not { of } => known(of, scope, day),
        Expr::Widen { of, .. } => known(of, scope, day),
        Expr::Round { of, .. } => known(of, scope, day),
        Expr::Num { left, right, .. } => known_both(left, right, scope, day),
        Expr::Cmp { left, right, .. } => known_both(left, right, scope, day),
        Expr::Logic { left, right, .. } => known_both(left, right, scope, day),
        Expr::Div { top, below, .. } => known_both(top, below, scope, day),
        Expr::Cond { test, yes, no } => {
            let test_known = known(test, scope, day);
            later_of(test_known, known_both(yes, no, scope, day))
        }
        Expr::Acc { body, days, first } => {
            // The name stands for a value of the same day, which is known where the body is.
            let inner = Scope::Bound {
                held: None,
                outer: &*scope,
            };
            let body_known = known(body, &inner, day);
            later_of(body_known, known(first, scope, days_before(day, *days)))
        }
    }
}

// Of two operands.
#[cycle(knowing)]
fn known_both(left: &Expr, right: &Expr, scope: &Scope<Option<i64>>, day: PartDay) -> Option<i64>
    requires left { HasRoom (height (expression left.now)) day.number }
    requires right { HasRoom (height (expression right.now)) day.number }
    ensures { result ≡ later (known_from day.number (held_in scope.now) (expression left.now))
        (known_from day.number (held_in scope.now) (expression right.now)) }
{
    let left_known = known(left, scope, day);
    later_of(left_known, known(right, scope, day))
}

// The answer where an expression is known at a start, else a fault here.
fn allow(known: Option<i64>, at: Start, answer: Start) -> Result<Start, u32>
    ensures start { result ≡ in_time known at answer }
    ensures here { IfErr result (λ node. node ≡ 0) }
{
    if is_known(known, at) {
        Ok(answer)
    } else {
        Err(0)
    }
}

// The start of a contract that stands on a day, or the number of the node at fault.
fn try_start(c: &Contr, scope: &Scope<Option<i64>>, day: PartDay) -> Result<Start, u32>
    requires small { nodes_of_contract (contract c.now) < 2 ^ 32 }
    requires room { HasRoom (height_of_contract (contract c.now)) day.number }
    ensures start { result ≡ start_tried day.number (held_in scope.now) (contract c.now) }
    ensures below { FaultIsWithin (nodes_of_contract (contract c.now)) result }
{
    match c {
        Contr::Zero => Ok(Start::Always),
        Contr::Pay { .. } => Ok(Start::Day { day: day.number }),
        Contr::Both { left, right } => {
            let left_start = behind_node(try_start(left, scope, day))?;
            let right_start = behind_contract(left, try_start(right, scope, day))?;
            Ok(earlier_of(left_start, right_start))
        }
        Contr::Scale { factor, body } => {
            let start = behind(factor, try_start(body, scope, day))?;
            allow(known(factor, scope, day), start, start)
        }
        Contr::After { days, body } => behind_node(try_start(
            body,
            scope,
            days_after(day, days.number()),
        )),
        Contr::Let { bound, body } => {
            let inner = Scope::Bound {
                held: known(bound, scope, day),
                outer: &*scope,
            };
            behind(bound, try_start(body, &inner, day))
        }
        Contr::Within {
            test,
            days,
            hit,
            miss,
        } => {
            let hit_start = behind(test, try_start(hit, scope, day))?;
            let last = days_after(day, days.number());
            let miss_start = behind_both(test, hit, try_start(miss, scope, last))?;
            let start = earlier_of(hit_start, miss_start);
            allow(
                known(test, scope, day),
                Start::Day { day: day.number },
                start,
            )
        }
    }
}

/// The start of a contract, where the rule on times holds everywhere in it. Where it fails, the
/// answer has the first node at fault, in the order in which the rules of acceptance try nodes: a
/// `scale` whose factor is not known when its body starts, or an `if .. within` whose test is not
/// known on the first day (after the typing of times of Bahr, Berthold and Elsman, ICFP 2015). It
/// takes no memory, which its clause leaves open.
pub fn times(alloc: Global, decls: &Decls, c: &Contr) -> Result<Start, CheckErr>
    requires low { height_of_contract (contract c.now) ≤ 1_000 }
    requires small { nodes_of_contract (contract c.now) < 2 ^ 32 }
    requires closed { IsClosed (declarations decls.now) (contract c.now) }
    requires sorted { Meets (declarations decls.now) Rule.Sort (contract c.now) }
    requires numbers { HasOnlyNumbers (contract c.now) }
    ensures { IsVerdict (declarations decls.now) Rule.Time (contract c.now)
        (λ start. IsStart (contract c.now) (start_day start)) result }
{
    match try_start(c, &Scope::Empty, PartDay { number: 0 }) {
        Ok(start) => Ok(start),
        Err(node) => Err(CheckErr::Refused {
            rule: Rule::Time,
            node,
        }),
    }
}
