//! The calls of the specialiser. After the specialisation of contracts by Bahr, Berthold and Elsman
//! (ICFP 2015) and the partial evaluation of contracts by Annenkov and Elsman (PPDP 2018).

ghost use Rattle.std.specs.Prelude.{IfOk};
ghost use Rattle.term_model.specs.Declarations.{declarations};
ghost use Rattle.term_model.specs.Terms.{expression, contract};
ghost use Rattle.term_model.specs.Acceptance.{IsAccepted};
ghost use Rattle.term_model.specs.Environments.{IsAdmitted};
ghost use Rattle.term_core.specs.SharedTerms.{shared, HasOffsets, StoresOffsets};
ghost use Rattle.specialise.specs.Specialisable.{IsPartOfAccepted};
ghost use Rattle.specialise.specs.Specialised.{day_of, IsDayOfContract, IsNear, StandsAlone};
ghost use Rattle.specialise.specs.Specialised.{Specialises, SpecialisesOn};
ghost use Rattle.specialise.specs.WalkAnswers.{IsToldOf, IsToldOn, TakesItsPlace};

use crate::contracts::specialise_from;
use crate::expressions::specialise_at;
use crate::frames::Frame;
use decimal::NoMemory;
use fixing_files::{Fixings, Known};
use std::alloc::Global;
use std::rc::Rc;
use term_core::{SharedContr, share, unshare};
use term_model::{Contr, Decls, Expr};

// What takes the place of an expression on a frame.
#[tactic(auto, using(crate::proofs::WalkFacts::for_frames))]
fn taken_on(
    alloc: Global,
    known: &Known<'_>,
    e: &Expr,
    frame: Frame,
) -> Result<Option<Expr>, NoMemory>
    requires place { IsPartOfAccepted known.now.decls (expression e.now) }
    requires offsets { HasOffsets (expression e.now) }
    requires day { IsNear frame }
    ensures { IfOk result (λ new. TakesItsPlace known.now (day_of frame) e.now new) }
{
    match frame {
        Frame::Day { day } => specialise_at(alloc, known, e, day),
        Frame::Unknown => Ok(None),
    }
}

// The expression with what takes the place of its parts.
fn expr_on(alloc: Global, known: &Known<'_>, e: &Expr, frame: Frame) -> Result<Expr, NoMemory>
    requires place { IsPartOfAccepted known.now.decls (expression e.now) }
    requires offsets { HasOffsets (expression e.now) }
    requires day { IsNear frame }
    ensures { IfOk result (λ r.
        IsToldOf known.now (day_of frame) (expression r) (expression e.now)) }
{
    match taken_on(alloc, known, e, frame)? {
        Some(new) => Ok(new),
        None => e.copy(alloc),
    }
}

// The contract with what takes the place of its parts.
#[tactic(auto, using(crate::proofs::WalkFacts::accepted_can_tell))]
fn shared_on(
    alloc: Global,
    known: &Known<'_>,
    s: &Rc<SharedContr>,
    day: i64,
) -> Result<Rc<SharedContr>, NoMemory>
    requires accepted { IsAccepted known.now.decls (shared s.now.value) }
    requires offsets { StoresOffsets s.now.value }
    requires day { IsDayOfContract day }
    ensures exact { IfOk result (λ r.
        IsToldOn known.now day (shared r.value) (shared s.now.value)) }
    ensures offsets { IfOk result (λ r. StoresOffsets r.value) }
{
    match specialise_from(alloc, known, s, day)? {
        Some(new) => Ok(new),
        None => Ok(s.clone()?),
    }
}

// The same without shared parts.
#[tactic(auto, using(crate::proofs::CallFacts::for_shared))]
fn contr_on(alloc: Global, known: &Known<'_>, c: &Contr, day: i64) -> Result<Contr, NoMemory>
    requires alone { StandsAlone known.now.decls (contract c.now) }
    requires day { IsDayOfContract day }
    ensures { IfOk result (λ r. IsToldOn known.now day (contract r) (contract c.now)) }
{
    let s = share(alloc, c)?;
    let new = shared_on(alloc, known, &s, day)?;
    unshare(alloc, &new)
}

/// The expression with what the fixings tell on its frame: an observable whose place is fixed, and
/// an accumulator that stands by itself and reads what is fixed, are literals. On an unknown frame
/// it is an equal expression.
pub fn specialise_expr(
    alloc: Global,
    decls: &Decls,
    e: &Expr,
    fixings: &Fixings,
    frame: Frame,
) -> Result<Expr, NoMemory>
    requires place { IsPartOfAccepted (declarations decls.now) (expression e.now) }
    requires offsets { HasOffsets (expression e.now) }
    requires admitted { IsAdmitted (declarations decls.now) fixings.now }
    requires day { IsNear frame }
    ensures { IfOk result (λ r. Specialises (declarations decls.now) fixings.now (day_of frame)
        (expression r) (expression e.now)) }
{
    expr_on(alloc, &Known { decls, fixings }, e, frame)
}

/// The contract with what the fixings tell, where it stands on a day. Parts that stay are shared
/// with the contract.
pub fn specialise_shared(
    alloc: Global,
    decls: &Decls,
    s: &Rc<SharedContr>,
    fixings: &Fixings,
    day: i64,
) -> Result<Rc<SharedContr>, NoMemory>
    requires accepted { IsAccepted (declarations decls.now) (shared s.now.value) }
    requires offsets { StoresOffsets s.now.value }
    requires admitted { IsAdmitted (declarations decls.now) fixings.now }
    requires day { IsDayOfContract day }
    ensures told { IfOk result (λ r. SpecialisesOn (declarations decls.now) fixings.now day
        (shared r.value) (shared s.now.value)) }
    ensures offsets { IfOk result (λ r. StoresOffsets r.value) }
{
    shared_on(alloc, &Known { decls, fixings }, s, day)
}

/// The contract with what the fixings tell, where it stands on a day, as `specialise_shared` has
/// it.
pub fn specialise_contr(
    alloc: Global,
    decls: &Decls,
    c: &Contr,
    fixings: &Fixings,
    day: i64,
) -> Result<Contr, NoMemory>
    requires alone { StandsAlone (declarations decls.now) (contract c.now) }
    requires admitted { IsAdmitted (declarations decls.now) fixings.now }
    requires day { IsDayOfContract day }
    ensures told { IfOk result (λ r. SpecialisesOn (declarations decls.now) fixings.now day
        (contract r) (contract c.now)) }
    ensures alone { IfOk result (λ r. StandsAlone (declarations decls.now) (contract r)) }
{
    contr_on(alloc, &Known { decls, fixings }, c, day)
}
