//! The scenarios of a table that breaks no rule.

ghost use Rattle.std.specs.Prelude.{◌≡◌, ◌≤◌, ◌<◌, ◌^◌, ℕ, [], length, IfOk, OnOk};
ghost use Rattle.scenario_set.specs.Settling.{AreUnfilled, AreWithin, Fills, IsWithin, PutsRow};
ghost use Rattle.scenario_set.specs.Settling.{Settles, names_of, row_at, rows_at};

use crate::drafts::Draft;
use crate::mentions::Mention;
use crate::scenarios::{Scenario, Scenarios, SetRow};
use crate::watches::{Group, Spot};
use decimal::NoMemory;
use indexmap::IndexSet;
use std::alloc::Global;
use std::collections::BTreeMap;
use term_model::Name;

// Scenarios of these names, without rows.
fn unfilled(alloc: Global, names: IndexSet<Name>) -> Result<Vec<Scenario>, NoMemory>
    ensures { IfOk result (λ each. AreUnfilled names.keys each.items) }
{
    let mut each = Vec::new(alloc);
    for name in names {
        each.push(Scenario {
            name,
            own: Vec::new(alloc),
        })?;
    }
    Ok(each)
}

// The row that a spot gives.
fn row_at(spot: Spot, first: Mention) -> SetRow
    ensures { result ≡ row_at spot first }
{
    SetRow {
        label: spot.label,
        day: spot.day,
        value: first.value,
    }
}

// Puts a row behind the others of its group.
fn put(
    common: &mut Vec<SetRow>,
    each: &mut Vec<Scenario>,
    group: Group,
    row: SetRow,
) -> Result<(), NoMemory>
    requires { IsWithin group (length each.old.items) }
    ensures { OnOk result (PutsRow common.old.items each.old.items
        common.new.items each.new.items group row) }
{
    match group {
        Group::All => {}
        Group::Each => common.push(row)?,
        Group::Of(i) => each[i].own.push(row)?,
    }
    Ok(())
}

// Puts the first row of each group at each place, in the order of places.
fn fill(
    common: &mut Vec<SetRow>,
    each: &mut Vec<Scenario>,
    firsts: BTreeMap<Spot, Mention>,
) -> Result<(), NoMemory>
    requires within { AreWithin firsts (length each.old.items) }
    requires common { common.old.items ≡ [] }
    requires own { (i : ℕ) → rows_at each.old.items i ≡ [] }
    ensures names { OnOk result (names_of each.new.items ≡ names_of each.old.items) }
    ensures filled { OnOk result (Fills firsts common.new.items each.new.items) }
{
    for (spot, first) in firsts {
        put(common, each, spot.group, row_at(spot, first))?;
    }
    Ok(())
}

/// The scenarios of what was read: of each name, with the first value that is kept of its rows, and
/// of those that hold in each, at each place.
pub fn settle(alloc: Global, draft: Draft) -> Result<Scenarios, NoMemory>
    requires some { 1 ≤ length draft.names.keys }
    requires few { length draft.names.keys < 2 ^ 32 }
    requires within { AreWithin draft.watch.first (length draft.names.keys) }
    ensures { IfOk result (λ set. Settles draft.names.keys draft.watch.first set) }
{
    let Draft { names, watch } = draft;
    let mut each = unfilled(alloc, names)?;
    let mut common = Vec::new(alloc);
    fill(&mut common, &mut each, watch.first)?;
    Ok(Scenarios { common, each })
}
