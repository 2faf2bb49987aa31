//! The walk of the specialiser over expressions, on a known day. A function pays at entry for the
//! locals of all its arms, so each form with parts has a function of its own, and a leaf pays for
//! none of them.

ghost use Rattle.std.specs.Prelude.{◌≡◌, ◌-ℤ◌, pos, IfOk, Some};
ghost use Rattle.term_model.specs.Declarations.{declarations};
ghost use Rattle.term_model.specs.Terms.{expression, Acc, Cond};
ghost use Rattle.term_model.specs.Environments.{IsAdmitted};
ghost use Rattle.rewriting.specs.Rebuilding.{after, over_one, over_two};
ghost use Rattle.specialise.specs.Specialisable.{CanTell, IsLookedUp, MaySpecialise};
ghost use Rattle.specialise.specs.WalkAnswers.{told_on, IsAccumulator, TakesItsPlace};
ghost use Rattle.specialise.specs.WalkAnswers.{TakesPlaceOfObs, TakesPlaceOfSteps};

use crate::literals::observed;
use decimal::NoMemory;
use expr_eval::{Scratch, eval, kind_of};
use fixing_files::{Fixings, Known};
use rewriting::{literal, names_within, of_one, of_three, of_two};
use std::alloc::Global;
use term_model::{Decls, Expr, days_earlier};

// The literal of an accumulator, where it stands by itself and all that it reads is fixed.
#[tactic(auto, using(crate::proofs::AccumulatorFacts::for_accumulators))]
fn accumulated(
    alloc: Global,
    decls: &Decls,
    e: &Expr,
    fixings: &Fixings,
    day: i64,
) -> Result<Option<Expr>, NoMemory>
    requires place { MaySpecialise (declarations decls.now) (expression e.now) }
    requires admitted { IsAdmitted (declarations decls.now) fixings.now }
    requires day { IsLookedUp day }
    requires steps { IsAccumulator (expression e.now) }
    ensures { IfOk result (λ new.
        TakesPlaceOfSteps
        (record { decls = declarations decls.now; fixings = fixings.now }) day e.now new) }
{
    if names_within(e, 0) {
        let mut scratch = Scratch::for_expr(alloc, e)?;
        match eval(decls, e, &mut scratch, fixings, day) {
            Ok(value) => Ok(Some(literal(kind_of(decls, e, &scratch), value))),
            Err(_) => Ok(None),
        }
    } else {
        Ok(None)
    }
}

// The same of what is known.
fn specialise_whole(
    alloc: Global,
    known: &Known<'_>,
    e: &Expr,
    day: i64,
) -> Result<Option<Expr>, NoMemory>
    requires place { MaySpecialise known.now.decls (expression e.now) }
    requires day { IsLookedUp day }
    requires steps { IsAccumulator (expression e.now) }
    ensures { IfOk result (λ new. TakesPlaceOfSteps known.now day e.now new) }
{
    accumulated(alloc, known.decls, e, known.fixings, day)
}

// What takes the place of an observable.
fn specialise_place(
    known: &Known<'_>,
    label: u32,
    offset: i32,
    day: i64,
) -> Result<Option<Expr>, NoMemory>
    requires { IsLookedUp day }
    ensures { IfOk result (λ new. TakesPlaceOfObs known.now day label offset new) }
{
    Ok(observed(known.decls, label, offset, known.fixings, day))
}

/// What takes the place of an expression on a day, with what the fixings tell; none where nothing
/// changes.
#[cycle(telling)]
pub fn specialise_at(
    alloc: Global,
    known: &Known<'_>,
    e: &Expr,
    day: i64,
) -> Result<Option<Expr>, NoMemory>
    requires { CanTell known.now.decls (expression e.now) day }
    ensures { IfOk result (λ new. TakesItsPlace known.now (Some day) e.now new) }
{
    match e {
        Expr::Lit { .. } | Expr::Yes { .. } | Expr::Var { .. } => Ok(None),
        Expr::Obs { label, offset } => specialise_place(known, *label, *offset, day),
        Expr::Neg { of } => specialise_one(alloc, known, e, of, day),
        Expr::Not { of } => specialise_one(alloc, known, e, of, day),
        Expr::Widen { of, .. } => specialise_one(alloc, known, e, of, day),
        Expr::Round { of, .. } => specialise_one(alloc, known, e, of, day),
        Expr::Num { left, right, .. } => specialise_two(alloc, known, e, left, right, day),
        Expr::Cmp { left, right, .. } => specialise_two(alloc, known, e, left, right, day),
        Expr::Logic { left, right, .. } => specialise_two(alloc, known, e, left, right, day),
        Expr::Div { top, below, .. } => specialise_two(alloc, known, e, top, below, day),
        Expr::Cond { test, yes, no } => specialise_three(alloc, known, e, test, yes, no, day),
        Expr::Acc { body, days, first } => {
            specialise_steps(alloc, known, e, body, *days, first, day)
        }
    }
}

// What takes the place of a node over one part.
#[cycle(telling)]
fn specialise_one(
    alloc: Global,
    known: &Known<'_>,
    e: &Expr,
    part: &Expr,
    day: i64,
) -> Result<Option<Expr>, NoMemory>
    requires whole { over_one (expression e.now) (expression part.now) ≡ expression e.now }
    requires part { CanTell known.now.decls (expression part.now) day }
    ensures { IfOk result (λ new. after (expression e.now) new
        ≡ over_one (expression e.now) (told_on known.now day (expression part.now))) }
{
    let new = specialise_at(alloc, known, part, day)?;
    of_one(alloc, e, part, new)
}

// What takes the place of a node over two parts.
#[cycle(telling)]
fn specialise_two(
    alloc: Global,
    known: &Known<'_>,
    e: &Expr,
    left: &Expr,
    right: &Expr,
    day: i64,
) -> Result<Option<Expr>, NoMemory>
    requires whole { over_two (expression e.now) (expression left.now) (expression right.now)
        ≡ expression e.now }
    requires left { CanTell known.now.decls (expression left.now) day }
    requires right { CanTell known.now.decls (expression right.now) day }
    ensures { IfOk result (λ new. after (expression e.now) new
        ≡ over_two (expression e.now) (told_on known.now day (expression left.now))
        (told_on known.now day (expression right.now))) }
{
    let one = specialise_at(alloc, known, left, day)?;
    let two = specialise_at(alloc, known, right, day)?;
    of_two(alloc, e, left, right, one, two)
}

// What takes the place of a choice.
#[cycle(telling)]
fn specialise_three(
    alloc: Global,
    known: &Known<'_>,
    e: &Expr,
    test: &Expr,
    yes: &Expr,
    no: &Expr,
    day: i64,
) -> Result<Option<Expr>, NoMemory>
    requires whole { expression e.now
        ≡ Cond (expression test.now) (expression yes.now) (expression no.now) }
    requires test { CanTell known.now.decls (expression test.now) day }
    requires yes { CanTell known.now.decls (expression yes.now) day }
    requires no { CanTell known.now.decls (expression no.now) day }
    ensures { IfOk result (λ new. after (expression e.now) new
        ≡ told_on known.now day
        (Cond (expression test.now) (expression yes.now) (expression no.now))) }
{
    let one = specialise_at(alloc, known, test, day)?;
    let two = specialise_at(alloc, known, yes, day)?;
    let three = specialise_at(alloc, known, no, day)?;
    of_three(alloc, e, test, yes, no, one, two, three)
}

// What takes the place of an accumulator.
#[cycle(telling)]
fn specialise_steps(
    alloc: Global,
    known: &Known<'_>,
    e: &Expr,
    body: &Expr,
    days: u32,
    first: &Expr,
    day: i64,
) -> Result<Option<Expr>, NoMemory>
    requires whole { expression e.now ≡ Acc (expression body.now) days (expression first.now) }
    requires place { MaySpecialise known.now.decls (expression e.now) }
    requires day { IsLookedUp day }
    requires first { CanTell known.now.decls (expression first.now) (day -ℤ pos days) }
    ensures { IfOk result (λ new. TakesItsPlace known.now (Some day) e.now new) }
{
    match specialise_whole(alloc, known, e, day)? {
        Some(literal) => Ok(Some(literal)),
        None => {
            let new = specialise_at(alloc, known, first, days_earlier(day, days))?;
            of_two(alloc, e, body, first, None, new)
        }
    }
}
