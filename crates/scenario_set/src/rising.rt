//! Tables whose rows rise: those of each scenario, and those of `*`, come in the order of labels
//! and then of days, and no scenario has a place of `*`. No two rows of such a table contradict
//! each other, so it is read without a watch on each place.

ghost use Rattle.std.specs.Prelude.{◌≡◌, ◌≤◌, ◌<◌, ◌^◌, [], length, All, IfOk, IfSome};
ghost use Rattle.std.specs.Prelude.{IsTrue, OnOk};
ghost use Rattle.csv.specs.Records.{fields_of};
ghost use Rattle.term_model.specs.Limits.{longest_file};
ghost use Rattle.term_model.specs.Declarations.{declarations};
ghost use Rattle.fixing_files.specs.Tables.{table_of};
ghost use Rattle.scenario_set.specs.Rising.{AddsBehind, AddsOwn, AreAll, AreApart, EndsBefore};
ghost use Rattle.scenario_set.specs.Rising.{GathersRows, IsBefore, IsLong, Reaches, TakesRising};
ghost use Rattle.scenario_set.specs.Rising.{TakesRow, row_told};
ghost use Rattle.scenario_set.specs.ScenarioSteps.{told_of};
ghost use Rattle.scenario_set.specs.ScenarioTables.{HoldsScenarios};

use crate::numbers::number_of;
use crate::records::{Saying, Scope, is_header, saying_of};
use crate::scenarios::{Scenario, Scenarios, SetRow, fixed_by};
use csv::ByteRecord;
use decimal::NoMemory;
use fixing_files::{Fixings, MOST_READS, reader_of};
use indexmap::IndexSet;
use std::alloc::Global;
use term_model::{Decls, Name};

/// What the rows say so far: the scenarios in the order of their first records, the rows of `*`,
/// and the names of the scenarios, by which they are found.
#[derive(Drop)]
pub struct Rising {
    pub names: IndexSet<Name>,
    pub each: Vec<Scenario>,
    pub common: Vec<SetRow>,
}

// Whether the place of a row comes before that of another.
fn is_before(one: SetRow, other: SetRow) -> bool
    ensures { IsTrue result → IsBefore one other }
{
    if one.label == other.label {
        one.day < other.day
    } else {
        one.label < other.label
    }
}

// Whether the place of a row comes behind those of rows that rise.
fn is_behind(rows: &[SetRow], row: SetRow) -> bool
    ensures { IsTrue result → EndsBefore rows.now row }
{
    match rows.last() {
        Some(last) => is_before(*last, row),
        None => true,
    }
}

// Adds a row to others that rise, and answers whether it lies behind them.
fn add_behind(rows: &mut Vec<SetRow>, row: SetRow) -> Result<bool, NoMemory>
    ensures { IfOk result (AddsBehind rows.old.items rows.new.items row) }
{
    if !is_behind(rows, row) {
        return Ok(false);
    }
    rows.push(row)?;
    Ok(true)
}

// Sees to it that there is the scenario of a number, which may be the next one, of this name.
fn reach(alloc: Global, each: &mut Vec<Scenario>, i: usize, name: &[u8]) -> Result<(), NoMemory>
    requires { i ≤ length each.old.items }
    ensures { OnOk result (Reaches each.old.items each.new.items i name.now) }
{
    if i == each.len() {
        let name = Name::new(alloc, name)?;
        let own = Vec::new(alloc);
        each.push(Scenario { name, own })?;
    }
    Ok(())
}

// Adds a row to those of a scenario, which may be the next one, and answers whether it lies behind
// them.
fn add_own(
    alloc: Global,
    each: &mut Vec<Scenario>,
    i: usize,
    name: &[u8],
    row: SetRow,
) -> Result<bool, NoMemory>
    requires { i ≤ length each.old.items }
    ensures { IfOk result (AddsOwn each.old.items each.new.items i name.now row) }
{
    reach(alloc, each, i, name)?;
    add_behind(&mut each[i].own, row)
}

// The row that a record says.
fn row_of(saying: Saying) -> SetRow
    ensures { result ≡ row_told (told_of saying.entry) }
{
    SetRow {
        label: saying.place.label,
        day: saying.place.day,
        value: saying.value,
    }
}

impl Rising {
    // No row yet.
    fn new(alloc: Global) -> Rising
        ensures names { result.names.keys ≡ [] }
        ensures each { result.each.items ≡ [] }
        ensures common { result.common.items ≡ [] }
    {
        Rising {
            names: IndexSet::new(alloc),
            each: Vec::new(alloc),
            common: Vec::new(alloc),
        }
    }

    // Takes what a record says, and answers whether its row lies behind the others of its scenario,
    // or of `*`.
    fn add(&mut self, alloc: Global, saying: Saying) -> Result<bool, NoMemory>
        requires { IsLong self.old }
        ensures { IfOk result (TakesRow (told_of saying.entry) self.old self.new) }
    {
        let row = row_of(saying);
        match saying.scope {
            Scope::Each => add_behind(&mut self.common, row),
            Scope::Named(name) => {
                let i = number_of(alloc, &mut self.names, name)?;
                add_own(alloc, &mut self.each, i, name, row)
            }
        }
    }

    // Takes the record of this number, and answers whether the table rises up to it.
    fn take(
        &mut self,
        alloc: Global,
        decls: &Decls,
        number: u32,
        record: &ByteRecord,
    ) -> Result<bool, NoMemory>
        requires number { 1 ≤ number }
        requires long { IsLong self.old }
        ensures { IfOk result (TakesRising (declarations decls.now) number
            (fields_of «record».now) self.old self.new) }
    {
        if number == 1 {
            return Ok(is_header(record));
        }
        match saying_of(decls, record) {
            Ok(saying) => self.add(alloc, saying),
            Err(_) => Ok(false),
        }
    }
}

// The rows of a table; none where it does not rise, or breaks another rule.
fn gather(alloc: Global, bytes: &[u8], decls: &Decls) -> Result<Option<Rising>, NoMemory>
    requires { length bytes.now ≤ longest_file }
    ensures { IfOk result (λ found. IfSome found
        (GathersRows (declarations decls.now) (table_of bytes.now))) }
{
    let mut reader = reader_of(alloc, bytes);
    let mut record = ByteRecord::new(alloc);
    let mut rising = Rising::new(alloc);
    for read in 0..MOST_READS {
        let Ok(found) = reader.read_byte_record(&mut record) else {
            return Err(NoMemory);
        };
        if !found {
            if rising.names.is_empty() {
                return Ok(None);
            }
            return Ok(Some(rising));
        }
        let rises = rising.take(alloc, decls, read + 1, &record)?;
        if !rises {
            return Ok(None);
        }
    }
    Ok(None)
}

// Whether no place of some rows is fixed.
fn is_apart(rows: &[SetRow], fixings: &Fixings) -> bool
    ensures { IsTrue result → AreApart rows.now fixings.now }
{
    for row in rows {
        if fixings.get(row.label, row.day).is_some() {
            return false;
        }
    }
    true
}

// Whether no scenario has a place that is fixed in all.
fn are_apart(each: &[Scenario], fixings: &Fixings) -> bool
    ensures { IsTrue result → All (λ s. AreApart s.own.items fixings.now) each.now }
{
    for scenario in each {
        if !is_apart(&scenario.own, fixings) {
            return false;
        }
    }
    true
}

// The scenarios of all rows; none where one of them has a place of `*`.
fn settle(alloc: Global, rising: Rising) -> Result<Option<Scenarios>, NoMemory>
    requires long { IsLong rising }
    requires some { 1 ≤ length rising.names.keys }
    requires few { length rising.names.keys < 2 ^ 32 }
    ensures { IfOk result (λ found. IfSome found (AreAll rising)) }
{
    let fixings = fixed_by(alloc, &rising.common)?;
    if !are_apart(&rising.each, &fixings) {
        return Ok(None);
    }
    let Rising { each, common, .. } = rising;
    Ok(Some(Scenarios { common, each }))
}

/// The scenarios of a table that rises. `None` says nothing of a table: it has to be read by the
/// reader that names faults.
pub fn read_rising(
    alloc: Global,
    bytes: &[u8],
    decls: &Decls,
) -> Result<Option<Scenarios>, NoMemory>
    requires { length bytes.now ≤ longest_file }
    ensures { IfOk result (λ found. IfSome found
        (HoldsScenarios (declarations decls.now) (table_of bytes.now))) }
{
    let found = gather(alloc, bytes, decls)?;
    match found {
        Some(rising) => settle(alloc, rising),
        None => Ok(None),
    }
}
