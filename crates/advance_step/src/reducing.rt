//! Reducing a contract that stands on a day.

ghost use Rattle.std.specs.Prelude.{IfOk};
ghost use Rattle.term_model.specs.Declarations.{declarations};
ghost use Rattle.term_model.specs.Environments.{IsAdmitted};
ghost use Rattle.term_model.specs.Acceptance.{IsAccepted};
ghost use Rattle.term_core.specs.SharedTerms.{shared, StoresOffsets};
ghost use Rattle.advance_step.specs.Residual.{IsReducedFrom, MayStandOn};

use decimal::NoMemory;
use fixing_files::Fixings;
use simplify::turn_shared;
use specialise::specialise_shared;
use std::alloc::Global;
use std::rc::Rc;
use term_core::SharedContr;
use term_model::Decls;

/// What an accepted contract that stands on a day is reduced to: what the fixings tell is put in,
/// and then a turn of the simplifier is taken, again and again, until a turn changes nothing. Each
/// round makes the contract smaller.
pub fn reduce(
    alloc: Global,
    decls: &Decls,
    s: &Rc<SharedContr>,
    fixings: &Fixings,
    day: i64,
) -> Result<Rc<SharedContr>, NoMemory>
    requires accepted { IsAccepted (declarations decls.now) (shared s.now.value) }
    requires offsets { StoresOffsets s.now.value }
    requires admitted { IsAdmitted (declarations decls.now) fixings.now }
    requires day { MayStandOn day }
    ensures reduced { IfOk result (λ r.
        IsReducedFrom (declarations decls.now) fixings.now day (shared s.now.value)
        (shared r.value)) }
    ensures offsets { IfOk result (λ r. StoresOffsets r.value) }
{
    let special = specialise_shared(alloc, decls, s, fixings, day)?;
    match turn_shared(alloc, decls, &special)? {
        Some(next) => reduce(alloc, decls, &next, fixings, day),
        None => Ok(special),
    }
}
