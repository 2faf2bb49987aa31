//! Equal places of a label's rows are folded: one value for each day, or a record that says
//! another.

ghost use Rattle.std.specs.Prelude.{◌≡◌, Contains, IfOk, OnOk};
ghost use Rattle.fixing_files.specs.Rows.{AreRuns, HasOwnNumbers, HasRow, HasRows, HaveOwnNumbers, IsRun};
ghost use Rattle.fixing_files.specs.Folds.{Advances, IsInOrder, Settles, SettlesAll, first_of_day, lesser};

use crate::rows::{Row, Run};
use crate::runs::FixedDay;
use decimal::NoMemory;
use std::alloc::Global;

/// A record that says another value than the first record of its place, by their numbers.
#[derive(Clone, Copy, Debug, PartialEq, Eq)]
pub struct Clash {
    pub number: u32,
    pub earlier: u32,
}

/// What the rows of a label come to: its days, each with its value, or the least record that
/// clashes.
#[derive(Drop)]
pub enum Settled {
    Days(Vec<FixedDay>),
    Clashes(Clash),
}

// The rows that were folded so far: their days, the first row of the last day, and the least record
// that clashes.
#[derive(Drop)]
struct Folding {
    days: Vec<FixedDay>,
    first: Option<Row>,
    least: Option<Clash>,
}

// The clash of the lesser record.
fn lesser(least: Option<Clash>, other: Clash) -> Clash
    ensures { result ≡ lesser least other }
{
    match least {
        Some(clash) if clash.number <= other.number => clash,
        _ => other,
    }
}

impl Folding {
    // The first row of the last day, if a row is of that day too.
    fn first_of_day(&self, row: &Row) -> Option<Row>
        ensures { result ≡ first_of_day self.now.first row.now }
    {
        match self.first {
            Some(first) if first.is_of_day(row) => Some(first),
            _ => None,
        }
    }

    // Takes the next row in the order of days, and of records for one day.
    fn take(&mut self, row: Row) -> Result<(), NoMemory>
        ensures { OnOk result (Advances self.old self.new row) }
    {
        match self.first_of_day(&row) {
            Some(first) => {
                if !first.agrees(&row) {
                    let clash = Clash {
                        number: row.number,
                        earlier: first.number,
                    };
                    self.least = Some(lesser(self.least, clash));
                }
            }
            None => {
                self.days.push(row.fixed())?;
                self.first = Some(row);
            }
        }
        Ok(())
    }
}

// The rows in order.
fn folded(alloc: Global, rows: &[Row]) -> Result<Settled, NoMemory>
    requires order { IsInOrder rows.now }
    requires numbers { HasOwnNumbers (Contains rows.now) }
    ensures { IfOk result (λ settled. Settles (Contains rows.now) settled) }
{
    let mut folding = Folding {
        days: Vec::new(alloc),
        first: None,
        least: None,
    };
    for row in rows {
        folding.take(*row)?;
    }
    match folding.least {
        Some(clash) => Ok(Settled::Clashes(clash)),
        None => Ok(Settled::Days(folding.days)),
    }
}

// All rows of a label, in the order of days, and of records for one day.
fn in_order(run: Run) -> Result<Vec<Row>, NoMemory>
    requires { IsRun run }
    ensures order { IfOk result (λ rows. IsInOrder rows.items) }
    ensures rows { IfOk result (λ rows. HasRows run rows.items) }
{
    let Run {
        days,
        numbers,
        late: mut rows,
    } = run;
    for (at, fixed) in days.iter().enumerate() {
        rows.push(Row::new(fixed, numbers[at]))?;
    }
    rows.sort_by_key(|row| (row.day, row.number))?;
    Ok(rows)
}

// The days of a label. Rows that rose are not sorted again.
fn settle(alloc: Global, run: Run) -> Result<Settled, NoMemory>
    requires run { IsRun run }
    requires numbers { HasOwnNumbers (HasRow run) }
    ensures { IfOk result (λ settled. Settles (HasRow run) settled) }
{
    if run.late.is_empty() {
        return Ok(Settled::Days(run.days));
    }
    let rows = in_order(run)?;
    folded(alloc, &rows)
}

/// What the rows of all labels come to.
#[derive(Drop)]
pub enum AllSettled {
    Runs(Vec<Vec<FixedDay>>),
    Clashes(Clash),
}

/// The days of all labels, or the least record that clashes.
pub fn settle_all(alloc: Global, runs: Vec<Run>) -> Result<AllSettled, NoMemory>
    requires runs { AreRuns runs.items }
    requires numbers { HaveOwnNumbers runs.items }
    ensures { IfOk result (λ settled. SettlesAll runs.items settled) }
{
    let mut days = Vec::new(alloc);
    let mut least = None;
    for label in runs {
        let settled = settle(alloc, label)?;
        match settled {
            Settled::Days(of_label) => days.push(of_label)?,
            Settled::Clashes(clash) => least = Some(lesser(least, clash)),
        }
    }
    match least {
        Some(clash) => Ok(AllSettled::Clashes(clash)),
        None => Ok(AllSettled::Runs(days)),
    }
}
