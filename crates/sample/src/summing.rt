//! The summary of the sample.

ghost use Rattle.std.specs.Prelude.{◌≡◌, ◌≤◌, ◌<◌, ◌+◌, ◌^◌, length, IfOk};
ghost use Rattle.term_model.specs.Declarations.{declarations};
ghost use Rattle.term_model.specs.Terms.{contract};
ghost use Rattle.term_model.specs.Environments.{IsAdmitted};
ghost use Rattle.sample.specs.Sample.{HoldSame, IsOfSample, sample_contract, sample_declarations, sample_fixings};
ghost use Rattle.sample.specs.Days.{AreDue};
ghost use Rattle.sample.specs.Gathering.{IsGathered};
ghost use Rattle.sample.specs.Summary.{AreRowsOf, IsSummary};

use crate::contracts::sample_contract;
use crate::days::over_days;
use crate::declared::sample_declarations;
use crate::fixed::sample_fixings;
use crate::lines::summary_text;
use decimal::NoMemory;
use fixing_files::Fixings;
use flow_eval::{FlowErr, FlowTable, LAST_DAY, flows};
use report::net;
use std::alloc::Global;
use term_model::{Contr, Decls};

// The flow table of a contract of the sample. No read of it lacks a fixing.
fn table_of(
    alloc: Global,
    decls: &Decls,
    contr: &Contr,
    fixings: &Fixings,
) -> Result<FlowTable, NoMemory>
    requires declared { declarations decls.now ≡ sample_declarations }
    requires sample { IsOfSample (contract contr.now) }
    requires same { HoldSame fixings.now sample_fixings }
    requires admitted { IsAdmitted sample_declarations fixings.now }
    ensures rows { IfOk result (λ table. AreRowsOf (contract contr.now) table.rows.items) }
    ensures due { IfOk result (λ table. AreDue table.rows.items) }
{
    match flows(alloc, decls, contr, fixings, LAST_DAY as i64) {
        Ok(table) => Ok(table),
        Err(FlowErr::NoMemory) => Err(NoMemory),
        Err(FlowErr::Missing { .. }) => unreachable!(),
    }
}

// The flow table of the contract of a number.
fn flows_of(
    alloc: Global,
    decls: &Decls,
    fixings: &Fixings,
    number: u32,
) -> Result<FlowTable, NoMemory>
    requires declared { declarations decls.now ≡ sample_declarations }
    requires same { HoldSame fixings.now sample_fixings }
    requires admitted { IsAdmitted sample_declarations fixings.now }
    ensures rows { IfOk result (λ table. AreRowsOf (sample_contract number) table.rows.items) }
    ensures due { IfOk result (λ table. AreDue table.rows.items) }
{
    let contr = sample_contract(alloc, number)?;
    table_of(alloc, decls, &contr, fixings)
}

// The flow lines of a table count with those before.
fn more_lines(lines: u128, table: &FlowTable) -> u128
    requires { lines ≤ 10 ^ 30 }
    ensures more { result ≡ lines + length table.now.rows.items }
    ensures few { length table.now.rows.items ≤ 2 ^ 64 }
{
    lines + table.rows.len() as u128
}

// Adds what the contract of a number pays over all days; its flow lines count with those of the
// contracts before it.
fn gather_next(
    alloc: Global,
    decls: &Decls,
    fixings: &Fixings,
    tables: &mut Vec<FlowTable>,
    lines: u128,
    number: u32,
) -> Result<u128, NoMemory>
    requires declared { declarations decls.now ≡ sample_declarations }
    requires same { HoldSame fixings.now sample_fixings }
    requires admitted { IsAdmitted sample_declarations fixings.now }
    requires few { number < 10_000 }
    requires before { IsGathered number lines tables.old.items }
    ensures { IfOk result (λ more. IsGathered (number + 1) more tables.new.items) }
{
    let table = flows_of(alloc, decls, fixings, number)?;
    let sums = over_days(alloc, &table)?;
    let more = more_lines(lines, &table);
    tables.push(sums)?;
    Ok(more)
}

// The tables of what each of the first contracts pays over all days, and how many flow lines they
// have together.
fn gather(
    alloc: Global,
    decls: &Decls,
    fixings: &Fixings,
    count: u32,
) -> Result<(Vec<FlowTable>, u128), NoMemory>
    requires declared { declarations decls.now ≡ sample_declarations }
    requires same { HoldSame fixings.now sample_fixings }
    requires admitted { IsAdmitted sample_declarations fixings.now }
    requires few { count ≤ 10_000 }
    ensures { IfOk result (λ all. IsGathered count all.1 all.0.items) }
{
    let mut tables = Vec::new(alloc);
    let mut lines = 0;
    for number in 0..count {
        lines = gather_next(alloc, decls, fixings, &mut tables, lines, number)?;
    }
    Ok((tables, lines))
}

/// The summary of the sample of at most 10,000 contracts: their number, the number of their flow
/// lines, and a line for each asset and two parties between whom they do not come to 0 over all
/// days and contracts.
pub fn summary(alloc: Global, count: u32) -> Result<Vec<u8>, NoMemory>
    requires { count ≤ 10_000 }
    ensures { IfOk result (λ text. IsSummary count text.items) }
{
    let decls = sample_declarations(alloc)?;
    let fixings = sample_fixings(alloc, &decls)?;
    let (tables, lines) = gather(alloc, &decls, &fixings, count)?;
    let sums = net(alloc, &tables)?;
    summary_text(alloc, &decls, count, lines, &sums.rows)
}
