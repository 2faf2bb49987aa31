//! The numbers of scenarios: places of their names, in the order of their first records.

ghost use Rattle.std.specs.Prelude.{◌≡◌, Some, slice_get, IfOk, IfSome};
ghost use Rattle.scenario_set.specs.Collecting.{HasNumber, IsNumbered};
ghost use Rattle.scenario_set.specs.Scopes.{scope_seen};

use crate::records::Scope;
use decimal::NoMemory;
use indexmap::IndexSet;
use std::alloc::Global;
use term_model::Name;

// The number of the last scenario, if it has this name.
fn last_number(names: &IndexSet<Name>, name: &[u8]) -> Option<usize>
    ensures { IfSome result (λ i. slice_get names.now.keys i ≡ Some name.now) }
{
    let last = names.last()?;
    if last.text() == name {
        Some(names.len() - 1)
    } else {
        None
    }
}

// The number of the scenario of a name. A new name comes last.
fn number_among(alloc: Global, names: &mut IndexSet<Name>, name: &[u8]) -> Result<usize, NoMemory>
    ensures { IfOk result (λ i. HasNumber names.old.keys names.new.keys name.now i) }
{
    if let Some(i) = names.get_index_of(name) {
        return Ok(i);
    }
    let i = names.len();
    let name = Name::new(alloc, name)?;
    names.insert(name)?;
    Ok(i)
}

/// The number of the scenario of a name. Most records are of the scenario that came last, and a new
/// one comes behind it.
pub fn number_of(alloc: Global, names: &mut IndexSet<Name>, name: &[u8]) -> Result<usize, NoMemory>
    ensures { IfOk result (λ i. HasNumber names.old.keys names.new.keys name.now i) }
{
    match last_number(names, name) {
        Some(i) => Ok(i),
        None => number_among(alloc, names, name),
    }
}

/// The number of the scenario for which a record counts, if it does not count for each.
pub fn own_of(
    alloc: Global,
    names: &mut IndexSet<Name>,
    scope: Scope,
) -> Result<Option<usize>, NoMemory>
    ensures { IfOk result
        (λ own. IsNumbered names.old.keys names.new.keys (scope_seen scope.entry) own) }
{
    match scope {
        Scope::Each => Ok(None),
        Scope::Named(name) => {
            let i = number_of(alloc, names, name)?;
            Ok(Some(i))
        }
    }
}
