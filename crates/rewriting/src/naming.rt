//! Names in expressions: whether one is used, and a literal in its place.

ghost use Rattle.std.specs.Prelude.{◌≡◌, ◌≤◌, ◌+◌, ◌^◌, IfOk};
ghost use Rattle.term_model.specs.Terms.{expression, Cond, Var};
ghost use Rattle.term_model.specs.Sizes.{height};
ghost use Rattle.term_model.specs.Redexes.{uses, names_within};
ghost use Rattle.rewriting.specs.Rebuilding.{after, over_one, over_two};
ghost use Rattle.rewriting.specs.Substituting.{substituted, name_without};

use crate::rebuilding::{of_one, of_three, of_two};
use decimal::NoMemory;
use std::alloc::Global;
use term_model::Expr;

/// Whether an expression uses the name with `back` binders between.
pub fn uses(e: &Expr, back: u32) -> bool
    requires { back + height (expression e.now) ≤ 2 ^ 31 }
    ensures { result ≡ uses back (expression e.now) }
{
    match e {
        Expr::Lit { .. } | Expr::Yes { .. } | Expr::Obs { .. } => false,
        Expr::Var { back: name } => *name == back,
        Expr::Neg { of } => uses(of, back),
        Expr::Not { of } => uses(of, back),
        Expr::Widen { of, .. } => uses(of, back),
        Expr::Round { of, .. } => uses(of, back),
        Expr::Num { left, right, .. } => uses(left, back) || uses(right, back),
        Expr::Cmp { left, right, .. } => uses(left, back) || uses(right, back),
        Expr::Logic { left, right, .. } => uses(left, back) || uses(right, back),
        Expr::Div { top, below, .. } => uses(top, back) || uses(below, back),
        Expr::Cond { test, yes, no } => uses(test, back) || (uses(yes, back) || uses(no, back)),
        Expr::Acc { body, first, .. } => uses(body, back + 1) || uses(first, back),
    }
}

/// Whether every name in an expression has its binder among the `count` nearest round it.
pub fn names_within(e: &Expr, count: u32) -> bool
    requires { count + height (expression e.now) ≤ 2 ^ 31 }
    ensures { result ≡ names_within count (expression e.now) }
{
    match e {
        Expr::Lit { .. } | Expr::Yes { .. } | Expr::Obs { .. } => true,
        Expr::Var { back } => *back < count,
        Expr::Neg { of } => names_within(of, count),
        Expr::Not { of } => names_within(of, count),
        Expr::Widen { of, .. } => names_within(of, count),
        Expr::Round { of, .. } => names_within(of, count),
        Expr::Num { left, right, .. } => names_within(left, count) && names_within(right, count),
        Expr::Cmp { left, right, .. } => names_within(left, count) && names_within(right, count),
        Expr::Logic { left, right, .. } => names_within(left, count) && names_within(right, count),
        Expr::Div { top, below, .. } => names_within(top, count) && names_within(below, count),
        Expr::Cond { test, yes, no } => {
            names_within(test, count) && (names_within(yes, count) && names_within(no, count))
        }
        Expr::Acc { body, first, .. } => {
            names_within(body, count + 1) && names_within(first, count)
        }
    }
}

// A name, once the one with `back` binders between is another expression.
fn name_without(
    alloc: Global,
    e: &Expr,
    name: u32,
    back: u32,
    other: &Expr,
) -> Result<Option<Expr>, NoMemory>
    requires { expression e.now ≡ Var name }
    ensures { IfOk result (λ r. after (expression e.now) r
        ≡ name_without back (expression other.now) name) }
{
    if name < back {
        Ok(None)
    } else if name == back {
        Ok(Some(other.copy(alloc)?))
    } else {
        Ok(Some(Expr::Var { back: name - 1 }))
    }
}

/// The expression with another one for the name with `back` binders between; names from farther out
/// count one binder less. It answers nothing where nothing changes.
#[cycle(substituting)]
pub fn substituted(
    alloc: Global,
    e: &Expr,
    back: u32,
    other: &Expr,
) -> Result<Option<Expr>, NoMemory>
    requires { back + height (expression e.now) ≤ 2 ^ 31 }
    ensures { IfOk result (λ r. after (expression e.now) r
        ≡ substituted back (expression other.now) (expression e.now)) }
{
    match e {
        Expr::Lit { .. } | Expr::Yes { .. } | Expr::Obs { .. } => Ok(None),
        Expr::Var { back: name } => name_without(alloc, e, *name, back, other),
        Expr::Neg { of } => over_substituted(alloc, e, of, back, other),
        Expr::Not { of } => over_substituted(alloc, e, of, back, other),
        Expr::Widen { of, .. } => over_substituted(alloc, e, of, back, other),
        Expr::Round { of, .. } => over_substituted(alloc, e, of, back, other),
        Expr::Num { left, right, .. } => {
            over_both_substituted(alloc, e, left, back, right, back, other)
        }
        Expr::Cmp { left, right, .. } => {
            over_both_substituted(alloc, e, left, back, right, back, other)
        }
        Expr::Logic { left, right, .. } => {
            over_both_substituted(alloc, e, left, back, right, back, other)
        }
        Expr::Div { top, below, .. } => {
            over_both_substituted(alloc, e, top, back, below, back, other)
        }
        Expr::Cond { test, yes, no } => choice_substituted(alloc, e, test, yes, no, back, other),
        Expr::Acc { body, first, .. } => {
            over_both_substituted(alloc, e, body, back + 1, first, back, other)
        }
    }
}

// A node over one part.
#[cycle(substituting)]
fn over_substituted(
    alloc: Global,
    e: &Expr,
    of: &Expr,
    back: u32,
    other: &Expr,
) -> Result<Option<Expr>, NoMemory>
    requires low { back + height (expression of.now) ≤ 2 ^ 31 }
    requires over { over_one (expression e.now) (expression of.now) ≡ expression e.now }
    ensures { IfOk result (λ r. after (expression e.now) r ≡ over_one (expression e.now)
        (substituted back (expression other.now) (expression of.now))) }
{
    let one = substituted(alloc, of, back, other)?;
    of_one(alloc, e, of, one)
}

// A node over two parts, each with the binders between the name and it.
#[cycle(substituting)]
fn over_both_substituted(
    alloc: Global,
    e: &Expr,
    left: &Expr,
    left_back: u32,
    right: &Expr,
    right_back: u32,
    other: &Expr,
) -> Result<Option<Expr>, NoMemory>
    requires left { left_back + height (expression left.now) ≤ 2 ^ 31 }
    requires right { right_back + height (expression right.now) ≤ 2 ^ 31 }
    requires over { over_two (expression e.now) (expression left.now) (expression right.now)
        ≡ expression e.now }
    ensures { IfOk result (λ r. after (expression e.now) r ≡ over_two (expression e.now)
        (substituted left_back (expression other.now) (expression left.now))
        (substituted right_back (expression other.now) (expression right.now))) }
{
    let one = substituted(alloc, left, left_back, other)?;
    let two = substituted(alloc, right, right_back, other)?;
    of_two(alloc, e, left, right, one, two)
}

// A choice.
#[cycle(substituting)]
fn choice_substituted(
    alloc: Global,
    e: &Expr,
    test: &Expr,
    yes: &Expr,
    no: &Expr,
    back: u32,
    other: &Expr,
) -> Result<Option<Expr>, NoMemory>
    requires low { back + height (Cond (expression test.now) (expression yes.now)
        (expression no.now)) ≤ 2 ^ 31 }
    requires over { expression e.now ≡ Cond (expression test.now) (expression yes.now)
        (expression no.now) }
    ensures { IfOk result (λ r. after (expression e.now) r
        ≡ substituted back (expression other.now) (expression e.now)) }
{
    let one = substituted(alloc, test, back, other)?;
    let two = substituted(alloc, yes, back, other)?;
    let three = substituted(alloc, no, back, other)?;
    of_three(alloc, e, test, yes, no, one, two, three)
}
