//! The simplifier: turns, until one changes nothing.

ghost use Rattle.std.specs.Prelude.{[], IfOk};
ghost use Rattle.term_model.specs.Declarations.{declarations};
ghost use Rattle.term_model.specs.Terms.{contract};
ghost use Rattle.term_model.specs.Acceptance.{IsAccepted};
ghost use Rattle.term_core.specs.SharedTerms.{shared, StoresOffsets};
ghost use Rattle.rewriting.specs.RebuildingContracts.{IsLessIn, NewStoresOffsets};
ghost use Rattle.specialise.specs.Specialised.{StandsAlone};
ghost use Rattle.simplify.specs.Simplified.{Simplifies};
ghost use Rattle.simplify.specs.TurnAnswers.{IsTurnOfContract};

use crate::contracts::turn_in;
use decimal::NoMemory;
use std::alloc::Global;
use std::rc::Rc;
use term_core::{SharedContr, share, unshare};
use term_model::{Contr, Decls, Scope};

/// One turn of the simplifier: what takes the contract's place, which is smaller, or nothing where
/// no redex is left that asks for no frame.
pub fn turn_shared(
    alloc: Global,
    decls: &Decls,
    s: &Rc<SharedContr>,
) -> Result<Option<Rc<SharedContr>>, NoMemory>
    requires accepted { IsAccepted (declarations decls.now) (shared s.now.value) }
    requires offsets { StoresOffsets s.now.value }
    ensures same { IfOk result (λ r. IsTurnOfContract (declarations decls.now) [] s.now.value r) }
    ensures less { IfOk result (λ r. IsLessIn r (shared s.now.value)) }
    ensures offsets { IfOk result (λ r. NewStoresOffsets r) }
{
    turn_in(alloc, decls, s, &Scope::Empty)
}

/// The contract without redexes that ask for no frame: it pays the same on every frame, reads no
/// more and is accepted. Parts that stay are shared with the contract. After the simplification of
/// contracts by Bahr, Berthold and Elsman.
pub fn simplify_shared(
    alloc: Global,
    decls: &Decls,
    s: &Rc<SharedContr>,
) -> Result<Rc<SharedContr>, NoMemory>
    requires accepted { IsAccepted (declarations decls.now) (shared s.now.value) }
    requires offsets { StoresOffsets s.now.value }
    ensures simpler { IfOk result (λ r.
        Simplifies (declarations decls.now) (shared r.value) (shared s.now.value)) }
    ensures offsets { IfOk result (λ r. StoresOffsets r.value) }
{
    match turn_in(alloc, decls, s, &Scope::Empty)? {
        Some(next) => simplify_shared(alloc, decls, &next),
        None => Ok(s.clone()?),
    }
}

/// The contract without redexes that ask for no frame, as `simplify_shared` has it.
pub fn simplify(alloc: Global, decls: &Decls, c: &Contr) -> Result<Contr, NoMemory>
    requires { StandsAlone (declarations decls.now) (contract c.now) }
    ensures simpler { IfOk result (λ r.
        Simplifies (declarations decls.now) (contract r) (contract c.now)) }
    ensures alone { IfOk result (λ r. StandsAlone (declarations decls.now) (contract r)) }
{
    let s = share(alloc, c)?;
    let simple = simplify_shared(alloc, decls, &s)?;
    unshare(alloc, &simple)
}
