//! The rows of labels while a table is read.

ghost use Rattle.std.specs.Prelude.{◌≡◌, ◌-◌, ◌<◌, OnOk, length, slice_get, vec_len};
ghost use Rattle.std.specs.Ordering.{int_eq};
ghost use Rattle.fixing_files.specs.Rows.{AddsRow, AddsRowAt, AreRuns, HasNoRow, IsRun, SameRows, day_of_row, rises_above, row_from, same_value};

use crate::runs::FixedDay;
use decimal::NoMemory;
use std::alloc::Global;
use term_model::Value;

/// The value that a record fixes on a day, and the number of the record.
#[derive(Clone, Copy, Debug, PartialEq, Eq)]
pub struct Row {
    pub day: i64,
    pub number: u32,
    pub value: Value,
}

/// The rows of one label: those that came in rising order of days, with the numbers of their
/// records beside them, and those that did not.
#[derive(Drop)]
pub struct Run {
    pub days: Vec<FixedDay>,
    pub numbers: Vec<u32>,
    pub late: Vec<Row>,
}

impl Row {
    /// What a record says of a day.
    pub fn new(fixed: &FixedDay, number: u32) -> Row
        ensures { result ≡ row_from fixed.now number }
    {
        Row {
            day: fixed.day,
            number,
            value: fixed.value,
        }
    }

    /// The day and its value.
    pub fn fixed(&self) -> FixedDay
        ensures { result ≡ day_of_row self.now }
    {
        FixedDay {
            day: self.day,
            value: self.value,
        }
    }

    /// Whether another row is of the same day.
    pub fn is_of_day(&self, other: &Row) -> bool
        ensures { result ≡ int_eq self.now.day other.now.day }
    {
        self.day == other.day
    }

    /// Whether another row says the same value.
    pub fn agrees(&self, other: &Row) -> bool
        ensures { result ≡ same_value self.now.value other.now.value }
    {
        self.value == other.value
    }
}

impl Run {
    /// No rows.
    pub fn new(alloc: Global) -> Run
        ensures run { IsRun result }
        ensures none { HasNoRow result }
    {
        Run {
            days: Vec::new(alloc),
            numbers: Vec::new(alloc),
            late: Vec::new(alloc),
        }
    }

    // Whether a row is of a day above all that rose.
    fn rises(&self, row: &Row) -> bool
        ensures { result
            ≡ rises_above (slice_get self.now.days.items (length self.now.days.items - 1))
            row.now.day }
    {
        match self.days.last() {
            Some(last) => last.day < row.day,
            None => true,
        }
    }

    /// Takes a row.
    pub fn take(&mut self, row: Row) -> Result<(), NoMemory>
        requires { IsRun self.old }
        ensures run { OnOk result (IsRun self.new) }
        ensures added { OnOk result (AddsRow self.old self.new row) }
    {
        if self.rises(&row) {
            self.days.push(row.fixed())?;
            self.numbers.push(row.number)?;
        } else {
            self.late.push(row)?;
        }
        Ok(())
    }
}

// Makes runs without rows up to the run of a label.
fn reach(alloc: Global, runs: &mut Vec<Run>, label: usize) -> Result<(), NoMemory>
    requires runs { AreRuns runs.old.items }
    ensures runs { OnOk result (AreRuns runs.new.items) }
    ensures same { OnOk result (SameRows runs.old.items runs.new.items) }
    ensures reached { OnOk result (label < vec_len runs.new) }
{
    while runs.len() <= label {
        runs.push(Run::new(alloc))?;
    }
    Ok(())
}

/// Takes a row of a label.
pub fn take_row(alloc: Global, runs: &mut Vec<Run>, label: u32, row: Row) -> Result<(), NoMemory>
    requires { AreRuns runs.old.items }
    ensures runs { OnOk result (AreRuns runs.new.items) }
    ensures added { OnOk result (AddsRowAt runs.old.items runs.new.items label row) }
{
    let label = label as usize;
    reach(alloc, runs, label)?;
    runs[label].take(row)
}
