//! Contracts whose later parts are handed on as they are: they stay, and what stands on the days
//! gone by pays then or not at all. Most contracts of a book are such where the fixings end with
//! the new day, and then nothing is shared, copied or reduced.

ghost use Rattle.std.specs.Prelude.{◌≡◌, true, min, IfOk, []};
ghost use Rattle.term_model.specs.Terms.{contract, expression};
ghost use Rattle.expr_eval.specs.Evaluable.{MayEvaluate, MayEvaluateIn};
ghost use Rattle.advance_step.specs.HandedOn.{AreFalseOn, IsFalseUpTo, IsHandedOn, StaysBehind};
ghost use Rattle.advance_step.specs.HandedOn.{handed};

use crate::gone::is_gone;
use crate::questions::first_day;
use crate::settled::{later_stays, waits};
use crate::simple_contracts::{both_left, delayed, is_later};
use crate::span::Span;
use decimal::NoMemory;
use expr_eval::Scratch;
use fixing_files::{Fixings, Known};
use std::alloc::Global;
use term_model::{Contr, Days, Expr};

// Whether what stands behind the days of a span stays as it is, and what stands on them is gone
// then.
fn stays_behind(fixings: &Fixings, span: Span, c: &Contr) -> bool
    ensures { result ≡ true → StaysBehind fixings.now (contract c.now) span.day span.last }
{
    match c {
        Contr::Zero | Contr::Pay { .. } => true,
        Contr::Both { left, right } => {
            stays_behind(fixings, span, left) && stays_behind(fixings, span, right)
        }
        Contr::Scale { body, .. } | Contr::Let { body, .. } => is_gone(body, span.last + 1),
        Contr::After { days, body } => {
            let days = days.number();
            if days <= span.last {
                stays_behind(fixings, span.after(days), body)
            } else {
                !is_later(body) && later_stays(fixings, span.day, days, body)
            }
        }
        Contr::Within {
            test,
            days,
            hit,
            miss,
        } => {
            let days = days.number();
            if days <= span.last {
                stays_behind(fixings, span.after(days), miss)
            } else {
                waits(
                    fixings,
                    span.new_day(),
                    test,
                    days - span.last - 1,
                    hit,
                    miss,
                )
            }
        }
    }
}

// Whether a test is false on the days of a span that are among its own.
fn is_false_on(known: &Known, scratch: &Scratch, span: Span, test: &Expr, days: u32) -> bool
    requires place { MayEvaluate known.now.decls (expression test.now) scratch.now.entries }
    requires no_names { scratch.now.entries ≡ [] }
    ensures { result ≡ true → IsFalseUpTo known.now.decls (expression test.now) known.now.fixings
        span.day (min days span.last) }
{
    matches!(first_day(known, test, scratch, span, days), Ok(None))
}

// Whether the tests that are tried on the days of a span are false on them.
fn are_false_on(known: &Known, scratch: &Scratch, span: Span, c: &Contr) -> bool
    requires part { MayEvaluateIn known.now.decls (contract c.now) scratch.now.entries }
    requires no_names { scratch.now.entries ≡ [] }
    ensures { result ≡ true → AreFalseOn known.now.decls known.now.fixings (contract c.now)
        span.day span.last }
{
    match c {
        Contr::Zero | Contr::Pay { .. } | Contr::Scale { .. } | Contr::Let { .. } => true,
        Contr::Both { left, right } => {
            are_false_on(known, scratch, span, left) && are_false_on(known, scratch, span, right)
        }
        Contr::After { days, body } => {
            let days = days.number();
            days > span.last || are_false_on(known, scratch, span.after(days), body)
        }
        Contr::Within {
            test,
            days,
            miss,
            ..
        } => {
            let days = days.number();
            is_false_on(known, scratch, span, test, days)
                && (days > span.last || are_false_on(known, scratch, span.after(days), miss))
        }
    }
}

/// Whether a contract is handed on over the days of a span. Tests are tried last, since a contract
/// that is not handed on is walked through again.
pub fn is_handed_on(known: &Known, scratch: &Scratch, span: Span, c: &Contr) -> bool
    requires part { MayEvaluateIn known.now.decls (contract c.now) scratch.now.entries }
    requires no_names { scratch.now.entries ≡ [] }
    ensures { result ≡ true → IsHandedOn known.now.decls known.now.fixings (contract c.now)
        span.day span.last }
{
    stays_behind(known.fixings, span, c) && are_false_on(known, scratch, span, c)
}

/// What is left of a contract that is handed on, after `last + 1` days.
pub fn handed_on(alloc: Global, c: Contr, last: u32) -> Result<Contr, NoMemory>
    ensures { IfOk result (λ r. contract r ≡ handed (contract c) last) }
{
    match c {
        Contr::Zero | Contr::Pay { .. } => Ok(Contr::Zero),
        Contr::Scale { .. } | Contr::Let { .. } => Ok(Contr::Zero),
        Contr::Both { left, right } => {
            let left = handed_on(alloc, Box::into_inner(left), last)?;
            let right = handed_on(alloc, Box::into_inner(right), last)?;
            both_left(alloc, left, right)
        }
        Contr::After { days, body } => {
            let days = days.number();
            if days <= last {
                handed_on(alloc, Box::into_inner(body), last - days)
            } else {
                Ok(delayed(days - last - 1, body))
            }
        }
        Contr::Within {
            test,
            days,
            hit,
            miss,
        } => {
            let days = days.number();
            if days <= last {
                return handed_on(alloc, Box::into_inner(miss), last - days);
            }
            let days = Days::Num {
                days: days - last - 1,
            };
            Ok(Contr::Within {
                test,
                days,
                hit,
                miss,
            })
        }
    }
}
