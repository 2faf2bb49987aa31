//! The commands `positions` and `settle`.

ghost use Rattle.std.specs.Prelude.{◌≡◌, OnOk, true};
ghost use Rattle.std.specs.List.{All};
ghost use Rattle.term_model.specs.Declarations.{declarations};
ghost use Rattle.term_model.specs.Environments.{IsAdmitted};
ghost use Rattle.command_words.specs.Arguments.{given_text};
ghost use Rattle.command_words.specs.Words.{netting_by};
ghost use Rattle.command_courses.specs.FixingTables.{IsShortTable};
ghost use Rattle.command_courses.specs.Inputs.{bytes_of};
ghost use Rattle.command_courses.specs.Stopping.{GoesDone};
ghost use Rattle.used_contracts.specs.ChoosingParts.{selection};
ghost use Rattle.used_contracts.specs.ReadingParts.{HasBegun};
ghost use Rattle.flow_commands.specs.FlowsParts.{of_flows};
ghost use Rattle.flow_commands.specs.NettingCourse.{flows_of_all, positions_course, settle_course};
ghost use Rattle.flow_commands.specs.NettingParts.{AnswersNet, AnswersNetOfAll, AnswersNetOfText};
ghost use Rattle.flow_commands.specs.NettingParts.{AppendsPositions, IsDuePosition};

use crate::flows::{append_table, flows_listed, flows_over};
use crate::flows_until::FlowsUntil;
use command_courses::{Inputs, Stop};
use command_words::Netting;
use contract_parse::ContractReader;
use decimal::NoMemory;
use exposure::{Positions, position_line, positions, settle};
use flow_eval::FlowTable;
use std::alloc::Global;
use term_model::{Decls, defaults};
use used_contracts::{Choice, start_reading};

// Appends the lines of positions.
fn append_positions(
    alloc: Global,
    out: &mut Vec<u8>,
    decls: &Decls,
    positions: &Positions,
) -> Result<(), NoMemory>
    requires { All (IsDuePosition (declarations decls.now)) positions.now.rows.items }
    ensures { OnOk result (AppendsPositions (declarations decls.now) positions.now.rows.items
        out.old.items out.new.items) }
{
    for row in &positions.rows {
        position_line(alloc, out, decls, row)?;
    }
    Ok(())
}

// The net of the flow tables of the contracts that are left of a text; or what stops their flows.
fn net_listed(
    alloc: Global,
    until: &FlowsUntil<'_>,
    reader: &mut ContractReader<'_>,
) -> Result<FlowTable, Stop>
    requires begun { HasBegun (declarations until.now.choice.decls.now) reader.old }
    requires admitted { IsAdmitted (declarations until.now.choice.decls.now) until.now.fixings.now }
    requires summed { until.now.summed ≡ true }
    ensures { AnswersNet until.now reader.old result }
{
    let listed = flows_listed(alloc, until, reader)?;
    let net = listed.sum.table(alloc)?;
    Ok(net)
}

// The net of the flow tables of all contracts that are left of a text, at the defaults; or what
// stops `flows` of them.
fn net_of_all(
    alloc: Global,
    choice: Choice<'_>,
    reader: &mut ContractReader<'_>,
    asked: &Netting<'_>,
    table: Option<&[u8]>,
) -> Result<FlowTable, Stop>
    requires begun { HasBegun (declarations choice.decls.now) reader.old }
    requires table { IsShortTable (given_text table) }
    requires all { selection choice ≡ of_flows (flows_of_all (netting_by asked.now)) }
    ensures { AnswersNetOfAll choice.entry reader.old (netting_by asked.now)
        (given_text table.entry) result }
{
    let over = flows_over(alloc, &choice, reader, asked.until, table)?;
    let until = FlowsUntil {
        choice,
        fixings: &over.fixings,
        last: over.last,
        summed: true,
    };
    net_listed(alloc, &until, reader)
}

// The declarations of a text, and the net of the flow tables of all its contracts.
fn net_of_text(
    alloc: Global,
    asked: &Netting<'_>,
    inputs: Inputs<'_>,
) -> Result<(Decls, FlowTable), Stop>
    ensures { AnswersNetOfText (netting_by asked.now) (bytes_of inputs.entry.files.now) result }
{
    let (decls, mut reader) = start_reading(alloc, inputs)?;
    let setting = defaults(alloc, &decls)?;
    let choice = Choice {
        decls: &decls,
        setting: &setting,
        named: None,
        only: false,
    };
    let table = inputs.table_if_named(asked.fixings);
    let net = net_of_all(alloc, choice, &mut reader, asked, table)?;
    Ok((decls, net))
}

/// What `positions` writes of a portfolio over the fixings of a table: a line for each
/// party, day and asset of what all contracts bring the party; or what stops it.
pub fn positions_text(
    alloc: Global,
    asked: &Netting<'_>,
    inputs: Inputs<'_>,
) -> Result<Vec<u8>, Stop>
    ensures { GoesDone (positions_course (netting_by asked.now) (bytes_of inputs.entry.files.now))
        result }
{
    let (decls, net) = net_of_text(alloc, asked, inputs)?;
    let found = positions(alloc, &[net])?;
    let mut lines = Vec::new(alloc);
    append_positions(alloc, &mut lines, &decls, &found)?;
    Ok(lines)
}

/// What `settle` writes: a line for each payment of a table that settles these positions; or what
/// stops it.
pub fn settlement_text(
    alloc: Global,
    asked: &Netting<'_>,
    inputs: Inputs<'_>,
) -> Result<Vec<u8>, Stop>
    ensures { GoesDone (settle_course (netting_by asked.now) (bytes_of inputs.entry.files.now))
        result }
{
    let (decls, net) = net_of_text(alloc, asked, inputs)?;
    let found = positions(alloc, &[net])?;
    let settled = settle(alloc, &found)?;
    let mut lines = Vec::new(alloc);
    append_table(alloc, &mut lines, &decls, b"*", &settled)?;
    Ok(lines)
}
