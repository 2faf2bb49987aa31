//! The walk of the specialiser over contracts with shared parts. A part that does not change is
//! handed on. As over expressions, each form with parts has a function of its own, so that none
//! pays at entry for the locals of another.

ghost use Rattle.std.specs.Prelude.{◌≡◌, IfOk};
ghost use Rattle.term_model.specs.Terms.{expression};
ghost use Rattle.term_core.specs.SharedTerms.{shared, HasOffsets};
ghost use Rattle.rewriting.specs.Rebuilding.{after};
ghost use Rattle.rewriting.specs.RebuildingContracts.{both_over, scale_over, after_over, let_over};
ghost use Rattle.rewriting.specs.RebuildingContracts.{within_over, NewStoresOffsets};
ghost use Rattle.specialise.specs.Specialisable.{CanTellLater, MayTellIn, MayTellAfter};
ghost use Rattle.specialise.specs.Specialisable.{MayTellWithin};
ghost use Rattle.specialise.specs.WalkAnswers.{TakesItsPlaceIn, TakesItsPlaceLater, TakesPlaceOf};

use crate::expressions::specialise_at;
use decimal::NoMemory;
use fixing_files::Known;
use rewriting::{after_of, both_of, let_of, scale_of, within_of};
use std::alloc::Global;
use std::rc::Rc;
use term_core::SharedContr;
use term_model::{Expr, day_read, days_later};

// What takes the place of a stored expression that is read some days later.
#[tactic(auto, using(crate::proofs::StoredFacts::for_stored))]
fn stored_at(
    alloc: Global,
    known: &Known<'_>,
    e: &Rc<Expr>,
    moved: i32,
    day: i64,
) -> Result<Option<Expr>, NoMemory>
    requires { CanTellLater known.now.decls (expression e.now.value) moved day }
    ensures tree { IfOk result (λ new. TakesItsPlaceLater known.now day moved e.now new) }
    ensures stores { IfOk result (λ new. HasOffsets (after (expression e.now.value) new)) }
{
    let new = specialise_at(alloc, known, e, day_read(day, moved))?;
    Ok(new)
}

/// What takes the place of a contract on a day, with what the fixings tell; none where nothing
/// changes. Tests and the branches that they lead to stand on no day that is known, and stay.
#[cycle(telling)]
pub fn specialise_from(
    alloc: Global,
    known: &Known<'_>,
    s: &SharedContr,
    day: i64,
) -> Result<Option<Rc<SharedContr>>, NoMemory>
    requires { MayTellIn known.now.decls s.now day }
    ensures tree { IfOk result (λ new. TakesItsPlaceIn known.now day s.now new) }
    ensures stores { IfOk result (λ new. NewStoresOffsets new) }
{
    match s {
        SharedContr::Zero | SharedContr::Pay { .. } => Ok(None),
        SharedContr::Both { left, right } => specialise_both(alloc, known, s, left, right, day),
        SharedContr::Scale {
            factor,
            moved,
            body,
        } => specialise_scale(alloc, known, s, factor, *moved, body, day),
        SharedContr::After { days, body } => specialise_after(alloc, known, s, *days, body, day),
        SharedContr::Let { bound, moved, body } => {
            specialise_let(alloc, known, s, bound, *moved, body, day)
        }
        SharedContr::Within {
            test,
            days,
            hit,
            miss,
        } => specialise_within(alloc, known, s, test, *days, hit, miss, day),
    }
}

// What takes the place of two contracts.
#[cycle(telling)]
fn specialise_both(
    alloc: Global,
    known: &Known<'_>,
    s: &SharedContr,
    left: &Rc<SharedContr>,
    right: &Rc<SharedContr>,
    day: i64,
) -> Result<Option<Rc<SharedContr>>, NoMemory>
    requires whole { shared s.now ≡ both_over left.now right.now }
    requires left { MayTellIn known.now.decls left.now.value day }
    requires right { MayTellIn known.now.decls right.now.value day }
    ensures tree { IfOk result (λ new.
        TakesPlaceOf known.now day s.now (both_over left.now right.now) new) }
    ensures stores { IfOk result (λ new. NewStoresOffsets new) }
{
    let one = specialise_from(alloc, known, left, day)?;
    let two = specialise_from(alloc, known, right, day)?;
    both_of(alloc, s, left, right, one, two)
}

// What takes the place of a contract with a factor.
#[cycle(telling)]
fn specialise_scale(
    alloc: Global,
    known: &Known<'_>,
    s: &SharedContr,
    factor: &Rc<Expr>,
    moved: i32,
    body: &Rc<SharedContr>,
    day: i64,
) -> Result<Option<Rc<SharedContr>>, NoMemory>
    requires whole { shared s.now ≡ scale_over moved factor.now body.now }
    requires factor { CanTellLater known.now.decls (expression factor.now.value) moved day }
    requires body { MayTellIn known.now.decls body.now.value day }
    ensures tree { IfOk result (λ new.
        TakesPlaceOf known.now day s.now (scale_over moved factor.now body.now) new) }
    ensures stores { IfOk result (λ new. NewStoresOffsets new) }
{
    let one = stored_at(alloc, known, factor, moved, day)?;
    let two = specialise_from(alloc, known, body, day)?;
    scale_of(alloc, s, factor, moved, body, one, two)
}

// What takes the place of a contract that waits.
#[cycle(telling)]
fn specialise_after(
    alloc: Global,
    known: &Known<'_>,
    s: &SharedContr,
    days: u32,
    body: &Rc<SharedContr>,
    day: i64,
) -> Result<Option<Rc<SharedContr>>, NoMemory>
    requires whole { shared s.now ≡ after_over days body.now }
    requires body { MayTellAfter known.now.decls days body.now.value day }
    ensures tree { IfOk result (λ new.
        TakesPlaceOf known.now day s.now (after_over days body.now) new) }
    ensures stores { IfOk result (λ new. NewStoresOffsets new) }
{
    let new = specialise_from(alloc, known, body, days_later(day, days))?;
    after_of(alloc, s, days, body, new)
}

// What takes the place of a contract in which a name is bound.
#[cycle(telling)]
fn specialise_let(
    alloc: Global,
    known: &Known<'_>,
    s: &SharedContr,
    bound: &Rc<Expr>,
    moved: i32,
    body: &Rc<SharedContr>,
    day: i64,
) -> Result<Option<Rc<SharedContr>>, NoMemory>
    requires whole { shared s.now ≡ let_over moved bound.now body.now }
    requires bound { CanTellLater known.now.decls (expression bound.now.value) moved day }
    requires body { MayTellIn known.now.decls body.now.value day }
    ensures tree { IfOk result (λ new.
        TakesPlaceOf known.now day s.now (let_over moved bound.now body.now) new) }
    ensures stores { IfOk result (λ new. NewStoresOffsets new) }
{
    let one = stored_at(alloc, known, bound, moved, day)?;
    let two = specialise_from(alloc, known, body, day)?;
    let_of(alloc, s, bound, moved, body, one, two)
}

// What takes the place of a contract that waits for a test.
#[cycle(telling)]
#[tactic(auto, using(crate::proofs::StoredFacts::for_parts_left))]
fn specialise_within(
    alloc: Global,
    known: &Known<'_>,
    s: &SharedContr,
    test: &Rc<Expr>,
    days: u32,
    hit: &Rc<SharedContr>,
    miss: &Rc<SharedContr>,
    day: i64,
) -> Result<Option<Rc<SharedContr>>, NoMemory>
    requires whole { shared s.now ≡ within_over test.now days hit.now miss.now }
    requires parts { MayTellWithin known.now.decls test.now days hit.now.value miss.now.value day }
    ensures tree { IfOk result (λ new.
        TakesPlaceOf known.now day s.now (within_over test.now days hit.now miss.now) new) }
    ensures stores { IfOk result (λ new. NewStoresOffsets new) }
{
    let new = specialise_from(alloc, known, miss, days_later(day, days))?;
    within_of(alloc, s, test, days, hit, miss, None, None, new)
}
