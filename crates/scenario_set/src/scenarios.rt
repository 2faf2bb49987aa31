//! Scenarios.

ghost use Rattle.std.specs.Prelude.{◌≡◌, ◌≤◌, ◌<◌, ◌^◌, length, Some, slice_get, option_map, IfOk};
ghost use Rattle.std.specs.Prelude.{OnOk};
ghost use Rattle.fixing_files.specs.Layers.{HoldSame};
ghost use Rattle.fixing_files.specs.Runs.{AddsUnlessHeld};
ghost use Rattle.scenario_set.specs.Scenarios.{AddsRows, IsMapOf, rows_held};

use decimal::NoMemory;
use fixing_files::{FewFixings, Fixings, Place};
use std::alloc::Global;
use std::marker::Model;
use term_model::{Name, Value};

/// A place with its value.
#[derive(Clone, Copy, Debug, PartialEq, Eq)]
pub struct SetRow {
    pub label: u32,
    pub day: i64,
    pub value: Value,
}

/// A scenario: its name, and the rows of its own, in the order of labels and then of days.
#[derive(Drop)]
pub struct Scenario {
    pub name: Name,
    pub own: Vec<SetRow>,
}

/// Scenarios, seen as the list of their names, each with its map of places. The rows that hold in
/// each of them are kept once.
#[derive(Drop)]
pub struct Scenarios {
    pub(crate) common: Vec<SetRow>,
    pub(crate) each: Vec<Scenario>,
}

impl Model for Scenarios {
    ghost use Rattle.std.specs.Prelude.{List, ◌≤◌, ◌<◌, ◌^◌, length};
    ghost use Rattle.scenario_set.specs.Scenarios.{NamedMap, maps_of, rows_held};

    ghost Value = { List NamedMap };

    ghost view = { λ s. maps_of (rows_held s.common.items) s.each.items };

    ghost invariant = { λ s. (1 ≤ length s.each.items) × (length s.each.items < 2 ^ 32) };
}

// Fixes what a row says, unless its place is fixed already.
fn add_row(few: &mut FewFixings, row: SetRow) -> Result<(), NoMemory>
    ensures { OnOk result (AddsUnlessHeld few.old few.new
        (record { label = row.label; day = row.day }) row.value) }
{
    let place = Place {
        label: row.label,
        day: row.day,
    };
    few.add(place, row.value)
}

// Fixes what rows say, but for the places that are fixed already.
fn add_all(few: &mut FewFixings, rows: &[SetRow]) -> Result<(), NoMemory>
    ensures { OnOk result (AddsRows few.old few.new rows.now) }
{
    for row in rows {
        add_row(few, *row)?;
    }
    Ok(())
}

/// What rows say, by places.
pub fn held_by(alloc: Global, rows: &[SetRow]) -> Result<FewFixings, NoMemory>
    ensures { IfOk result (λ few. HoldSame few (rows_held rows.now)) }
{
    let mut few = FewFixings::none(alloc);
    add_all(&mut few, rows)?;
    Ok(few)
}

/// What rows say, by labels.
pub fn fixed_by(alloc: Global, rows: &[SetRow]) -> Result<Fixings, NoMemory>
    ensures { IfOk result (λ fixings. HoldSame fixings (rows_held rows.now)) }
{
    let few = held_by(alloc, rows)?;
    few.by_labels(alloc)
}

impl Scenarios {
    /// How many scenarios there are. It takes no memory.
    pub fn count(&self) -> u32
        ensures count { result ≡ length self.now }
        ensures some { 1 ≤ result }
    {
        self.each.len() as u32
    }

    /// The name of a scenario. It takes no memory.
    pub fn name(&self, i: u32) -> &Name
        requires { i < length self.now }
        ensures { option_map (λ s. s.name) (slice_get self.now i) ≡ Some result.now }
    {
        &self.each[i as usize].name
    }

    /// The map of a scenario.
    pub fn fixings(&self, alloc: Global, i: u32) -> Result<Fixings, NoMemory>
        requires { i < length self.now }
        ensures { IfOk result (λ fixings. IsMapOf self.now i fixings) }
    {
        let mut few = held_by(alloc, &self.each[i as usize].own)?;
        add_all(&mut few, &self.common)?;
        few.by_labels(alloc)
    }
}
