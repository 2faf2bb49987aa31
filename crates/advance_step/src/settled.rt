//! Expressions and contracts that stay as they are when what is fixed is put in and a turn is
//! taken: no part reduces, and nothing that is read on a known day is fixed.

ghost use Rattle.std.specs.Prelude.{◌≡◌, ◌+ℤ◌, ◌||◌, pos, true, false, Some, None};
ghost use Rattle.term_model.specs.DayCounts.{Num as Count};
ghost use Rattle.term_model.specs.Terms.{contract, expression, Acc, Within};
ghost use Rattle.term_model.specs.Redexes.{is_literal, is_zero_literal};
ghost use Rattle.simplify.specs.TurningContracts.{is_nothing};
ghost use Rattle.advance_step.specs.HandedOn.{IsSettled, Stays, lacks};

use crate::simple_contracts::is_later;
use fixing_files::Fixings;
use term_model::{Contr, Expr};

fn is_literal(e: &Expr) -> bool
    ensures { result ≡ is_literal (expression e.now) }
{
    matches!(e, Expr::Lit { .. } | Expr::Yes { .. })
}

fn is_zero_literal(e: &Expr) -> bool
    ensures { result ≡ is_zero_literal (expression e.now) }
{
    match e {
        Expr::Lit { mant, .. } => *mant == 0,
        _ => false,
    }
}

fn is_nothing(c: &Contr) -> bool
    ensures { result ≡ is_nothing (contract c.now) }
{
    matches!(c, Contr::Zero)
}

// Whether an expression on a day reads a place that is not fixed, whatever it comes to.
fn lacks(fixings: &Fixings, day: i64, e: &Expr) -> bool
    ensures { result ≡ true → lacks fixings.now day (expression e.now) ≡ true }
{
    match e {
        Expr::Obs { label, offset } => match day.checked_add(*offset as i64) {
            Some(day) => fixings.get(*label, day).is_none(),
            None => false,
        },
        Expr::Neg { of } | Expr::Not { of } | Expr::Widen { of, .. } | Expr::Round { of, .. } => {
            lacks(fixings, day, of)
        }
        Expr::Num { left, right, .. } | Expr::Cmp { left, right, .. } => {
            lacks(fixings, day, left) || lacks(fixings, day, right)
        }
        Expr::Div { top, below, .. } => lacks(fixings, day, top) || lacks(fixings, day, below),
        Expr::Logic { left, .. } => lacks(fixings, day, left),
        Expr::Cond { test, .. } => lacks(fixings, day, test),
        Expr::Lit { .. } | Expr::Yes { .. } | Expr::Var { .. } | Expr::Acc { .. } => false,
    }
}

// Whether an expression that is a part of a test or of an accumulator's body is no redex.
fn is_plain(fixings: &Fixings, e: &Expr) -> bool
    ensures { result ≡ true → IsSettled fixings.now None (expression e.now) }
{
    match e {
        Expr::Lit { .. } | Expr::Yes { .. } | Expr::Var { .. } | Expr::Obs { .. } => true,
        Expr::Neg { of } | Expr::Not { of } | Expr::Widen { of, .. } | Expr::Round { of, .. } => {
            !is_literal(of) && is_plain(fixings, of)
        }
        Expr::Num { left, right, .. } | Expr::Cmp { left, right, .. } => {
            !(is_literal(left) && is_literal(right))
                && is_plain(fixings, left)
                && is_plain(fixings, right)
        }
        Expr::Div { top, below, .. } => {
            !(is_literal(top) && is_literal(below))
                && is_plain(fixings, top)
                && is_plain(fixings, below)
        }
        Expr::Logic { left, right, .. } => {
            !is_literal(left) && is_plain(fixings, left) && is_plain(fixings, right)
        }
        Expr::Cond { test, yes, no } => {
            !is_literal(test)
                && is_plain(fixings, test)
                && is_plain(fixings, yes)
                && is_plain(fixings, no)
        }
        Expr::Acc { body, days, first } => {
            *days > 0 && is_plain(fixings, body) && is_plain(fixings, first)
        }
    }
}

// The same of one that stands on a day, of which nothing is fixed.
#[cycle(settling)]
fn is_settled(fixings: &Fixings, day: i64, e: &Expr) -> bool
    ensures { result ≡ true → IsSettled fixings.now (Some day) (expression e.now) }
{
    match e {
        Expr::Lit { .. } | Expr::Yes { .. } | Expr::Var { .. } => true,
        Expr::Obs { .. } => lacks(fixings, day, e),
        Expr::Neg { of } | Expr::Not { of } | Expr::Widen { of, .. } | Expr::Round { of, .. } => {
            !is_literal(of) && is_settled(fixings, day, of)
        }
        Expr::Num { left, right, .. } | Expr::Cmp { left, right, .. } => {
            !(is_literal(left) && is_literal(right))
                && is_settled(fixings, day, left)
                && is_settled(fixings, day, right)
        }
        Expr::Div { top, below, .. } => {
            !(is_literal(top) && is_literal(below))
                && is_settled(fixings, day, top)
                && is_settled(fixings, day, below)
        }
        Expr::Logic { left, right, .. } => {
            !is_literal(left) && is_settled(fixings, day, left) && is_settled(fixings, day, right)
        }
        Expr::Cond { test, yes, no } => {
            !is_literal(test)
                && is_settled(fixings, day, test)
                && is_settled(fixings, day, yes)
                && is_settled(fixings, day, no)
        }
        Expr::Acc { body, days, first } => is_sum_settled(fixings, day, body, *days, first),
    }
}

// The same of an accumulator.
#[cycle(settling)]
#[tactic(auto, using(crate::proofs::SettledSums::sum_settled))]
fn is_sum_settled(fixings: &Fixings, day: i64, body: &Expr, days: u32, first: &Expr) -> bool
    ensures { result ≡ true → IsSettled fixings.now (Some day)
        (Acc (expression body.now) days (expression first.now)) }
{
    let Some(start) = day.checked_sub(days as i64) else {
        return false;
    };
    days > 0
        && starts_open(fixings, start, body, first)
        && is_plain(fixings, body)
        && is_settled(fixings, start, first)
}

// Whether one lacks a place at its start, or on its first day.
fn starts_open(fixings: &Fixings, start: i64, body: &Expr, first: &Expr) -> bool
    ensures { result ≡ true → (lacks fixings.now start (expression first.now)
        || lacks fixings.now (start +ℤ pos 1) (expression body.now)) ≡ true }
{
    match start.checked_add(1) {
        Some(next) => lacks(fixings, start, first) || lacks(fixings, next, body),
        None => false,
    }
}

/// Whether no part of a contract that a test leads to reduces.
pub fn is_kept(fixings: &Fixings, c: &Contr) -> bool
    ensures { result ≡ true → Stays fixings.now None (contract c.now) }
{
    match c {
        Contr::Zero | Contr::Pay { .. } => true,
        Contr::Both { left, right } => {
            !is_nothing(left)
                && !is_nothing(right)
                && is_kept(fixings, left)
                && is_kept(fixings, right)
        }
        Contr::Scale { factor, body } => {
            !is_zero_literal(factor)
                && !is_nothing(body)
                && is_plain(fixings, factor)
                && is_kept(fixings, body)
        }
        Contr::After { days, body } => {
            days.number() > 0 && !is_later(body) && !is_nothing(body) && is_kept(fixings, body)
        }
        Contr::Let { .. } => false,
        Contr::Within {
            test,
            hit,
            miss,
            ..
        } => {
            !is_literal(test)
                && !(is_nothing(hit) && is_nothing(miss))
                && is_plain(fixings, test)
                && is_kept(fixings, hit)
                && is_kept(fixings, miss)
        }
    }
}

/// Whether no part of a contract that stands on a day reduces, and nothing that is read is fixed.
#[cycle(staying)]
pub fn stays(fixings: &Fixings, day: i64, c: &Contr) -> bool
    ensures { result ≡ true → Stays fixings.now (Some day) (contract c.now) }
{
    match c {
        Contr::Zero | Contr::Pay { .. } => true,
        Contr::Both { left, right } => {
            !is_nothing(left)
                && !is_nothing(right)
                && stays(fixings, day, left)
                && stays(fixings, day, right)
        }
        Contr::Scale { factor, body } => {
            !is_zero_literal(factor)
                && !is_nothing(body)
                && is_settled(fixings, day, factor)
                && stays(fixings, day, body)
        }
        Contr::After { days, body } => {
            let days = days.number();
            days > 0 && !is_later(body) && later_stays(fixings, day, days, body)
        }
        Contr::Let { .. } => false,
        Contr::Within {
            test,
            days,
            hit,
            miss,
        } => waits(fixings, day, test, days.number(), hit, miss),
    }
}

/// Whether what stands so many days later is something, and stays.
#[cycle(staying)]
pub fn later_stays(fixings: &Fixings, day: i64, days: u32, c: &Contr) -> bool
    ensures something { result ≡ true → is_nothing (contract c.now) ≡ false }
    ensures stays { result ≡ true → Stays fixings.now (Some (day +ℤ pos days)) (contract c.now) }
{
    match day.checked_add(days as i64) {
        Some(day) => !is_nothing(c) && stays(fixings, day, c),
        None => false,
    }
}

/// Whether a contract that waits for a test stays.
#[cycle(staying)]
pub fn waits(fixings: &Fixings, day: i64, test: &Expr, days: u32, hit: &Contr, miss: &Contr) -> bool
    ensures { result ≡ true → Stays fixings.now (Some day)
        (Within (expression test.now) (Count days) (contract hit.now) (contract miss.now)) }
{
    let Some(end) = day.checked_add(days as i64) else {
        return false;
    };
    !is_literal(test)
        && !(is_nothing(hit) && is_nothing(miss))
        && is_plain(fixings, test)
        && is_kept(fixings, hit)
        && stays(fixings, end, miss)
}
