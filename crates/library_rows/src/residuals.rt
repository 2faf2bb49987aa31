//! What calls make of accepted contracts over fixings: fixed places told, and what is left after a
//! day or more.

ghost use Rattle.std.specs.Prelude.{◌≤◌, ◌≤ℤ◌, pos, IfOk};
ghost use Rattle.term_model.specs.Limits.{last_start};
ghost use Rattle.term_model.specs.Acceptance.{IsAccepted};
ghost use Rattle.term_model.specs.Declarations.{declarations};
ghost use Rattle.term_model.specs.Environments.{IsAdmitted};
ghost use Rattle.term_model.specs.Terms.{contract};
ghost use Rattle.term_model.specs.WellFormed.{IsClosed};
ghost use Rattle.term_core.specs.SharedTerms.{shared, StoresOffsets};
ghost use Rattle.specialise.specs.Specialised.{IsNear, StandsAlone};

use advance_step::{Advanced, advance, carry, step};
use decimal::NoMemory;
use fixing_files::Fixings;
use flow_eval::FlowErr;
use row_language::{Answer, RowErr, say, say_same};
use simplify::is_nothing;
use specialise::laws::parts_may_be_specialised;
use specialise::{Frame, specialise_contr, specialise_expr};
use std::alloc::Global;
use std::rc::Rc;
use term_core::{SharedContr, share};
use term_model::{Contr, Decls, Expr, LAST_START};

/// Appends whether a contract with what is fixed told is the one that is wanted.
pub fn specialised(
    alloc: Global,
    decls: &Decls,
    c: &Contr,
    fixings: &Fixings,
    day: i64,
    wanted: &Contr,
    out: &mut String,
) -> Answer
    requires alone { StandsAlone (declarations decls.now) (contract c.now) }
    requires admitted { IsAdmitted (declarations decls.now) fixings.now }
    requires first { pos 0 ≤ℤ day }
    requires last { day ≤ℤ pos last_start }
{
    let special = specialise_contr(alloc, decls, c, fixings, day)?;
    say_same(special == *wanted, out)
}

// The expression that a contract binds or tests.
fn first_of(c: &Contr) -> Result<&Expr, RowErr> {
    match c {
        Contr::Let { bound, .. } => Ok(bound),
        Contr::Within { test, .. } => Ok(test),
        _ => Err(RowErr::Text),
    }
}

// What becomes of the expression that an accepted contract binds or tests.
fn first_on(
    alloc: Global,
    decls: &Decls,
    c: &Contr,
    fixings: &Fixings,
    frame: Frame,
) -> Result<Expr, RowErr>
    requires accepted { IsAccepted (declarations decls.now) (contract c.now) }
    requires closed { IsClosed (declarations decls.now) (contract c.now) }
    requires admitted { IsAdmitted (declarations decls.now) fixings.now }
    requires day { IsNear frame }
{
    parts_may_be_specialised();
    match c {
        Contr::Let { bound, .. } => Ok(specialise_expr(alloc, decls, bound, fixings, frame)?),
        Contr::Within { test, .. } => Ok(specialise_expr(alloc, decls, test, fixings, frame)?),
        _ => Err(RowErr::Text),
    }
}

/// Appends whether the expression that it binds or tests becomes that of the contract that is
/// wanted, on a day or an unknown one.
pub fn specialised_first(
    alloc: Global,
    decls: &Decls,
    c: &Contr,
    fixings: &Fixings,
    frame: Frame,
    wanted: &Contr,
    out: &mut String,
) -> Answer
    requires alone { StandsAlone (declarations decls.now) (contract c.now) }
    requires admitted { IsAdmitted (declarations decls.now) fixings.now }
    requires day { IsNear frame }
{
    let wanted = first_of(wanted)?;
    let special = first_on(alloc, decls, c, fixings, frame)?;
    say_same(special == *wanted, out)
}

// Appends what is due, and whether what is left is what is wanted.
fn say_left(answer: &Advanced, wanted: &Contr, out: &mut String) -> Answer {
    say(&answer.due, out)?;
    say_same(answer.rest == *wanted, out)
}

// The same, or what is missing.
fn say_advanced(answer: Result<Advanced, FlowErr>, wanted: &Contr, out: &mut String) -> Answer {
    match answer {
        Ok(advanced) => say_left(&advanced, wanted, out),
        Err(error) => say(&error, out),
    }
}

/// Appends what it pays on a day, and whether what is left on the next is what is wanted.
pub fn stepped(
    alloc: Global,
    decls: &Decls,
    c: &Contr,
    fixings: &Fixings,
    day: i64,
    wanted: &Contr,
    out: &mut String,
) -> Answer
    requires alone { StandsAlone (declarations decls.now) (contract c.now) }
    requires admitted { IsAdmitted (declarations decls.now) fixings.now }
    requires first { pos 0 ≤ℤ day }
    requires last { day ≤ℤ pos last_start }
{
    say_advanced(step(alloc, decls, c, fixings, day), wanted, out)
}

/// Appends what it pays on so many days, and whether what is left is what is wanted.
pub fn advanced(
    alloc: Global,
    decls: &Decls,
    c: &Contr,
    fixings: &Fixings,
    days: u32,
    wanted: &Contr,
    out: &mut String,
) -> Answer
    requires alone { StandsAlone (declarations decls.now) (contract c.now) }
    requires admitted { IsAdmitted (declarations decls.now) fixings.now }
{
    if days > LAST_START || decls.start + days > LAST_START {
        return Err(RowErr::Range);
    }
    say_advanced(advance(alloc, decls, c, fixings, days), wanted, out)
}

// The contract over shared parts.
fn shared_parts(alloc: Global, _decls: &Decls, c: &Contr) -> Result<Rc<SharedContr>, NoMemory>
    requires { StandsAlone (declarations _decls.now) (contract c.now) }
    ensures accepted { IfOk result (λ s. IsAccepted (declarations _decls.now) (shared s.value)) }
    ensures offsets { IfOk result (λ s. StoresOffsets s.value) }
{
    let s = share(alloc, c)?;
    Ok(s)
}

// Appends whether nothing is left of a contract on the next day, or what is missing.
fn say_carried(
    alloc: Global,
    decls: &Decls,
    parts: &Rc<SharedContr>,
    fixings: &Fixings,
    day: i64,
    out: &mut String,
) -> Answer
    requires accepted { IsAccepted (declarations decls.now) (shared parts.now.value) }
    requires offsets { StoresOffsets parts.now.value }
    requires admitted { IsAdmitted (declarations decls.now) fixings.now }
    requires first { pos 0 ≤ℤ day }
    requires last { day ≤ℤ pos last_start }
{
    match carry(alloc, decls, parts, fixings, day, 0) {
        Ok(rest) => say(&is_nothing(&rest), out),
        Err(error) => say(&error, out),
    }
}

/// Appends whether nothing is left of it on the day after a day on which it stands, as parts that
/// are shared with it; or what is missing. What is left the clause of `carry` says.
pub fn carried(
    alloc: Global,
    decls: &Decls,
    c: &Contr,
    fixings: &Fixings,
    day: i64,
    out: &mut String,
) -> Answer
    requires alone { StandsAlone (declarations decls.now) (contract c.now) }
    requires admitted { IsAdmitted (declarations decls.now) fixings.now }
    requires first { pos 0 ≤ℤ day }
    requires last { day ≤ℤ pos last_start }
{
    let parts = shared_parts(alloc, decls, c)?;
    say_carried(alloc, decls, &parts, fixings, day, out)
}
