//! The command `flows`.

ghost use Rattle.std.specs.Prelude.{◌≡◌, pos, IfOk, OnOk, option_map};
ghost use Rattle.std.specs.List.{All};
ghost use Rattle.term_model.specs.Acceptance.{IsAccepted};
ghost use Rattle.term_model.specs.Declarations.{declarations};
ghost use Rattle.term_model.specs.Environments.{IsAdmitted};
ghost use Rattle.term_model.specs.Terms.{contract};
ghost use Rattle.contract_parse.specs.NextContracts.{IsSoundContract};
ghost use Rattle.flow_eval.specs.Readiness.{last_day};
ghost use Rattle.flow_eval.specs.Tables.{IsDueRow};
ghost use Rattle.report.specs.FlowLines.{HaveLines};
ghost use Rattle.report.specs.SumTables.{IsSummable};
ghost use Rattle.command_words.specs.Arguments.{given_text};
ghost use Rattle.command_words.specs.Words.{flows_by};
ghost use Rattle.command_courses.specs.FixingTables.{IsShortTable};
ghost use Rattle.command_courses.specs.Inputs.{bytes_of};
ghost use Rattle.command_courses.specs.Stopping.{GoesDone};
ghost use Rattle.used_contracts.specs.ChoosingParts.{Steps, selection};
ghost use Rattle.used_contracts.specs.ReadingParts.{HasBegun};
ghost use Rattle.flow_commands.specs.FlowsCourse.{flows_course};
ghost use Rattle.flow_commands.specs.FlowsParts.{AddsFlows, AnswersFlows, AnswersKeptFlows};
ghost use Rattle.flow_commands.specs.FlowsParts.{AnswersLastDay, AnswersLinesAsked, AnswersOver};
ghost use Rattle.flow_commands.specs.FlowsParts.{AnswersTable, AppendsLines, AreLinesOfSum};
ghost use Rattle.flow_commands.specs.FlowsParts.{CanBeSummed, HasFlows, KeepsTable, TellsFlows};
ghost use Rattle.flow_commands.specs.FlowsParts.{of_flows};

use crate::flows_until::FlowsUntil;
use command_courses::{Inputs, Stop, day_asked, stop_of};
use command_words::{DayWord, Flows};
use contract_parse::{ContractReader, NextContract};
use decimal::NoMemory;
use fixing_files::Fixings;
use flow_eval::{FlowTable, LAST_DAY, flows};
use report::{Fault, FlowSum, flow_line};
use std::alloc::Global;
use term_model::{Contr, Decls, defaults};
use used_contracts::{
    Choice, Tried, behind_names, choose, first_stop, fixings_over, nothing_tried, read_next,
    start_reading,
};

/// The day of a word, or of none the last that there is.
pub fn last_day(alloc: Global, decls: &Decls, until: Option<DayWord<'_>>) -> Result<i64, Stop>
    ensures { AnswersLastDay (declarations decls.now) (option_map (λ day. day.word.now) until.entry)
        result }
{
    match until {
        Some(asked) => day_asked(alloc, decls, asked, LAST_DAY),
        None => Ok(LAST_DAY as i64),
    }
}

/// Appends the lines of a flow table.
pub fn append_table(
    alloc: Global,
    out: &mut Vec<u8>,
    decls: &Decls,
    name: &[u8],
    table: &FlowTable,
) -> Result<(), NoMemory>
    requires due { All (IsDueRow (pos 0) (pos last_day)) table.now.rows.items }
    requires lines { HaveLines (declarations decls.now) table.now.rows.items }
    ensures { OnOk result (AppendsLines (declarations decls.now) name.now table.now.rows.items
        out.old.items out.new.items) }
{
    for row in &table.rows {
        flow_line(alloc, out, decls, name, row)?;
    }
    Ok(())
}

/// The flows of contracts: their sum if they are to be summed, else their lines.
#[derive(Drop)]
pub struct Listed {
    pub text: Vec<u8>,
    pub sum: FlowSum,
}

/// The flows of the contracts so far, or the fault of the first of them that has a read that is not
/// fixed.
#[derive(Drop)]
pub struct KeptFlows {
    pub listed: Listed,
    pub missing: Option<Fault>,
}

// The flow table of a contract.
fn table_of(alloc: Global, until: &FlowsUntil<'_>, contr: &Contr) -> Result<FlowTable, Stop>
    requires accepted { IsAccepted (declarations until.now.choice.decls.now) (contract contr.now) }
    requires admitted { IsAdmitted (declarations until.now.choice.decls.now) until.now.fixings.now }
    ensures { AnswersTable (declarations until.now.choice.decls.now) (contract contr.now)
        until.now.fixings.now until.now.last result }
{
    match flows(alloc, until.choice.decls, contr, until.fixings, until.last) {
        Ok(table) => Ok(table),
        Err(error) => Err(stop_of(alloc, until.choice.decls, error)),
    }
}

// Adds the table of a contract to the sum, or its lines to the text.
fn list_table(
    alloc: Global,
    until: &FlowsUntil<'_>,
    name: &[u8],
    table: FlowTable,
    listed: &mut Listed,
) -> Result<(), NoMemory>
    requires summable { IsSummable table.rows.items }
    requires due { All (IsDueRow (pos 0) (pos last_day)) table.rows.items }
    requires lines { HaveLines (declarations until.now.choice.decls.now) table.rows.items }
    ensures { OnOk result (KeepsTable until.now.summed (declarations until.now.choice.decls.now)
        name.now table listed.old listed.new) }
{
    if until.summed {
        listed.sum.add(alloc, &table)
    } else {
        append_table(alloc, &mut listed.text, until.choice.decls, name, &table)
    }
}

// Puts the flows of a contract behind those of the contracts before it, if all reads of these are
// fixed.
fn add_flows(
    alloc: Global,
    until: &FlowsUntil<'_>,
    one: NextContract<'_>,
    kept: &mut KeptFlows,
) -> Result<(), NoMemory>
    requires accepted { IsAccepted (declarations until.now.choice.decls.now) (contract one.contr) }
    requires admitted { IsAdmitted (declarations until.now.choice.decls.now) until.now.fixings.now }
    ensures { OnOk result
        (AddsFlows until.now (one.entry.name.now, contract one.entry.contr) kept.old kept.new) }
{
    if kept.missing.is_some() {
        return Ok(());
    }
    match table_of(alloc, until, &one.contr) {
        Ok(table) => list_table(alloc, until, one.name, table, &mut kept.listed),
        Err(Stop::Fault(fault)) => {
            kept.missing = Some(fault);
            Ok(())
        }
        Err(Stop::NoMemory) => Err(NoMemory),
    }
}

// The same of the next contract that is read, if it is used and none so far is refused.
fn add_next(
    alloc: Global,
    until: &FlowsUntil<'_>,
    next: NextContract<'_>,
    tried: &mut Tried,
    kept: &mut KeptFlows,
) -> Result<(), NoMemory>
    requires sound { IsSoundContract (declarations until.now.choice.decls.now)
        (contract next.contr) }
    requires admitted { IsAdmitted (declarations until.now.choice.decls.now) until.now.fixings.now }
    ensures { OnOk result
        (Steps (declarations until.now.choice.decls.now) (selection until.now.choice)
        (HasFlows until.now kept.old) (HasFlows until.now kept.new)
        (next.entry.name.now, contract next.entry.contr) tried.old tried.new) }
{
    if let Some(one) = choose(alloc, &until.choice, next, tried)? {
        add_flows(alloc, until, one, kept)?;
    }
    Ok(())
}

// What comes of the contracts of a text, and what is kept of their flows.
fn flows_of_all(
    alloc: Global,
    until: &FlowsUntil<'_>,
    reader: &mut ContractReader<'_>,
) -> Result<(Tried, KeptFlows), Stop>
    requires begun { HasBegun (declarations until.now.choice.decls.now) reader.old }
    requires admitted { IsAdmitted (declarations until.now.choice.decls.now) until.now.fixings.now }
    ensures { AnswersKeptFlows until.now reader.old result }
{
    let mut tried = nothing_tried(until.choice.named);
    let mut kept = KeptFlows {
        listed: Listed {
            text: Vec::new(alloc),
            sum: FlowSum::new(alloc),
        },
        missing: None,
    };
    while let Some(next) = read_next(alloc, until.choice.decls, reader)? {
        add_next(alloc, until, next, &mut tried, &mut kept)?;
    }
    Ok((tried, kept))
}

/// The flows of the contracts of a text that are used, or the first stop: at the text, by the name,
/// by acceptance, or at a read that is not fixed.
pub fn flows_listed(
    alloc: Global,
    until: &FlowsUntil<'_>,
    reader: &mut ContractReader<'_>,
) -> Result<Listed, Stop>
    requires begun { HasBegun (declarations until.now.choice.decls.now) reader.old }
    requires admitted { IsAdmitted (declarations until.now.choice.decls.now) until.now.fixings.now }
    ensures { AnswersFlows until.now reader.old result }
{
    let (tried, kept) = flows_of_all(alloc, until, reader)?;
    first_stop(alloc, until.choice.named, tried, kept.missing)?;
    Ok(kept.listed)
}

/// The last day and the fixings that flows are asked over.
#[derive(Drop)]
pub struct Over {
    pub last: i64,
    pub fixings: Fixings,
}

/// The last day and the fixings that are asked for, if the word names a day in range and each row
/// of the table is taken. If not, the contracts that are left are read, for a fault of theirs comes
/// first.
pub fn flows_over(
    alloc: Global,
    choice: &Choice<'_>,
    reader: &mut ContractReader<'_>,
    until: Option<DayWord<'_>>,
    table: Option<&[u8]>,
) -> Result<Over, Stop>
    requires begun { HasBegun (declarations choice.now.decls.now) reader.old }
    requires table { IsShortTable (given_text table) }
    ensures over { AnswersOver choice.now reader.old (option_map (λ day. day.word.now) until.entry)
        (given_text table.entry) result }
    ensures unread { IfOk result (λ over. reader.new ≡ reader.old) }
{
    match last_day(alloc, choice.decls, until) {
        Ok(last) => {
            let fixings = fixings_over(alloc, choice, reader, table)?;
            Ok(Over { last, fixings })
        }
        Err(stop) => Err(behind_names(alloc, choice, reader, stop)),
    }
}

// The lines of what contracts pay together whose flow tables have this sum.
fn sum_lines(alloc: Global, until: &FlowsUntil<'_>, sum: FlowSum) -> Result<Vec<u8>, NoMemory>
    requires summable { CanBeSummed until.now sum }
    requires admitted { IsAdmitted (declarations until.now.choice.decls.now) until.now.fixings.now }
    ensures { IfOk result (λ text. AreLinesOfSum until.now sum text.items) }
{
    let table = sum.table(alloc)?;
    let mut text = Vec::new(alloc);
    append_table(alloc, &mut text, until.choice.decls, b"*", &table)?;
    Ok(text)
}

// The lines of the contracts that are used, or of their sum.
fn lines_asked(
    alloc: Global,
    until: &FlowsUntil<'_>,
    reader: &mut ContractReader<'_>,
) -> Result<Vec<u8>, Stop>
    requires begun { HasBegun (declarations until.now.choice.decls.now) reader.old }
    requires admitted { IsAdmitted (declarations until.now.choice.decls.now) until.now.fixings.now }
    ensures { AnswersLinesAsked until.now reader.old result }
{
    let listed = flows_listed(alloc, until, reader)?;
    if until.summed {
        Ok(sum_lines(alloc, until, listed.sum)?)
    } else {
        Ok(listed.text)
    }
}

// The same over what the words ask for.
fn lines_over(
    alloc: Global,
    choice: Choice<'_>,
    reader: &mut ContractReader<'_>,
    asked: &Flows<'_>,
    table: Option<&[u8]>,
) -> Result<Vec<u8>, Stop>
    requires begun { HasBegun (declarations choice.decls.now) reader.old }
    requires table { IsShortTable (given_text table) }
    requires chosen { selection choice ≡ of_flows (flows_by asked.now) }
    ensures { TellsFlows choice.entry reader.old (flows_by asked.now) (given_text table.entry)
        result }
{
    let over = flows_over(alloc, &choice, reader, asked.until, table)?;
    let until = FlowsUntil {
        choice,
        fixings: &over.fixings,
        last: over.last,
        summed: asked.net,
    };
    lines_asked(alloc, &until, reader)
}

/// What `flows` writes of a portfolio over the fixings of a table: the flow lines of the
/// contracts that are asked for, at the defaults and in their order, or those of their sum; or what
/// stops it. Each contract is read, tried and dropped before the next.
pub fn flows_text(alloc: Global, asked: &Flows<'_>, inputs: Inputs<'_>) -> Result<Vec<u8>, Stop>
    ensures { GoesDone (flows_course (flows_by asked.now) (bytes_of inputs.entry.files.now))
        result }
{
    let (decls, mut reader) = start_reading(alloc, inputs)?;
    let setting = defaults(alloc, &decls)?;
    let choice = Choice {
        decls: &decls,
        setting: &setting,
        named: asked.contract,
        only: true,
    };
    let table = inputs.table_if_named(asked.fixings);
    lines_over(alloc, choice, &mut reader, asked, table)
}
