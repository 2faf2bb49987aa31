//! The command `advance`: contracts are carried to a day, and what is due and what is left is
//! written.

ghost use Rattle.std.specs.Prelude.{◌≡◌, ◌≤◌, ◌++◌, [], pos, All, IfOk, None, OnOk, length};
ghost use Rattle.term_model.specs.Acceptance.{IsAccepted};
ghost use Rattle.term_model.specs.Declarations.{declarations};
ghost use Rattle.term_model.specs.Environments.{IsAdmitted};
ghost use Rattle.term_model.specs.Limits.{last_start, longest_file};
ghost use Rattle.term_model.specs.Terms.{contract};
ghost use Rattle.contract_parse.specs.NextContracts.{IsSoundContract};
ghost use Rattle.contract_grammar.specs.Writable.{IsWritableTerm};
ghost use Rattle.flow_eval.specs.Readiness.{last_day};
ghost use Rattle.flow_eval.specs.Tables.{IsDueRow};
ghost use Rattle.report.specs.FlowLines.{HaveLines};
ghost use Rattle.command_words.specs.Words.{advance_by};
ghost use Rattle.command_courses.specs.Inputs.{bytes_of};
ghost use Rattle.command_courses.specs.Stopping.{GoesDone};
ghost use Rattle.used_contracts.specs.ChoosingParts.{Steps, selection};
ghost use Rattle.used_contracts.specs.ReadingParts.{HasBegun};
ghost use Rattle.used_contracts.specs.UsedParts.{IsTriable};
ghost use Rattle.lifecycle_commands.specs.AdvanceCourse.{advance_course};
ghost use Rattle.lifecycle_commands.specs.AdvanceParts.{AddsRest, AnswersAdvanced, AnswersCarried};
ghost use Rattle.lifecycle_commands.specs.AdvanceParts.{AnswersKeptRest, AnswersLeft};
ghost use Rattle.lifecycle_commands.specs.AdvanceParts.{AnswersNewDay, AppendsComments, AreLeft};
ghost use Rattle.lifecycle_commands.specs.AdvanceParts.{HasRests, changed, rest_line};
ghost use Rattle.lifecycle_commands.specs.AdvancePromise.{rest_declarations};

use crate::advance_to::{AdvanceTo, Renaming};
use advance_step::{Advanced, into_advanced};
use command_courses::{Inputs, Stop, day_asked, stop_of};
use command_words::{Advance, DayWord};
use contract_parse::{ContractReader, NextContract};
use contract_print::{print_beginning, print_contract};
use decimal::NoMemory;
use exposure::rename;
use flow_eval::FlowTable;
use report::{Fault, flow_line};
use std::alloc::Global;
use term_model::{Contr, Decls, LAST_START, defaults};
use used_contracts::{
    Choice, Tried, all_contracts, behind_names, choose, first_stop, fixings_over, nothing_tried,
    read_next, start_reading,
};

// The new day of a word.
fn new_day(alloc: Global, decls: &Decls, to: DayWord<'_>) -> Result<u32, Stop>
    ensures { AnswersNewDay (declarations decls.now) to.entry.word.now result }
{
    let day = day_asked(alloc, decls, to, LAST_START)?;
    Ok(day as u32)
}

// Appends the lines of a flow table, each as a comment.
fn append_comments(
    alloc: Global,
    out: &mut Vec<u8>,
    decls: &Decls,
    name: &[u8],
    table: &FlowTable,
) -> Result<(), NoMemory>
    requires due { All (IsDueRow (pos 0) (pos last_day)) table.now.rows.items }
    requires lines { HaveLines (declarations decls.now) table.now.rows.items }
    ensures { OnOk result (AppendsComments (declarations decls.now) name.now
        table.now.rows.items out.old.items out.new.items) }
{
    for row in &table.rows {
        out.extend_from_slice(b"# ")?;
        flow_line(alloc, out, decls, name, row)?;
    }
    Ok(())
}

/// The comments of what is due so far before the new day, and the text so far of what is left.
#[derive(Drop)]
pub struct Left {
    pub due: Vec<u8>,
    pub rest: Vec<u8>,
}

/// The same of the contracts so far, or the fault of the first of them that has a read that is not
/// fixed.
#[derive(Drop)]
pub struct KeptRest {
    pub left: Left,
    pub missing: Option<Fault>,
}

// What is due of a contract before the new day, and what is left of it then.
fn advance_contract(alloc: Global, to: &AdvanceTo<'_>, contr: Contr) -> Result<Advanced, Stop>
    requires accepted { IsAccepted (declarations to.now.choice.decls.now) (contract contr) }
    requires triable { IsTriable (declarations to.now.choice.decls.now) (contract contr) }
    requires admitted { IsAdmitted (declarations to.now.choice.decls.now) to.now.fixings.now }
    ensures { AnswersAdvanced to.now (contract contr) result }
{
    let days = to.day - to.choice.decls.start;
    match into_advanced(alloc, to.choice.decls, contr, to.fixings, days) {
        Ok(advanced) => Ok(advanced),
        Err(error) => Err(stop_of(alloc, to.choice.decls, error)),
    }
}

// What is left of a contract, with the new party if it is the one that is renamed.
fn renamed(
    alloc: Global,
    renaming: Option<Renaming<'_>>,
    name: &[u8],
    rest: Contr,
) -> Result<Contr, NoMemory>
    ensures { IfOk result (λ r. contract r ≡ (changed renaming.entry (name.now, contract rest)).1) }
{
    let Some(renaming) = renaming else {
        return Ok(rest);
    };
    if renaming.contract.as_bytes() == name {
        rename(alloc, &rest, renaming.old, renaming.new)
    } else {
        Ok(rest)
    }
}

// Puts what is due of a contract, and the line of what is left of it, behind those of the contracts
// before it.
fn keep(
    alloc: Global,
    to: &AdvanceTo<'_>,
    name: &[u8],
    advanced: Advanced,
    left: &mut Left,
) -> Result<(), NoMemory>
    requires due { All (IsDueRow (pos 0) (pos last_day)) advanced.due.rows.items }
    requires lines { HaveLines (declarations to.now.choice.decls.now) advanced.due.rows.items }
    requires writable { IsWritableTerm (contract advanced.rest) }
    ensures due { OnOk result (AppendsComments (declarations to.now.choice.decls.now) name.now
        advanced.due.rows.items left.old.due.items left.new.due.items) }
    ensures rest { OnOk result (left.new.rest.items
        ≡ left.old.rest.items ++ rest_line to.now (name.now, contract advanced.rest)) }
{
    let Advanced { due, rest } = advanced;
    append_comments(alloc, &mut left.due, to.choice.decls, name, &due)?;
    let rest = renamed(alloc, to.renaming, name, rest)?;
    print_contract(alloc, &mut left.rest, to.choice.decls, name, &rest)
}

// Advances a contract behind those before it, if all reads of these are fixed.
fn advance_one(
    alloc: Global,
    to: &AdvanceTo<'_>,
    one: NextContract<'_>,
    kept: &mut KeptRest,
) -> Result<(), NoMemory>
    requires accepted { IsAccepted (declarations to.now.choice.decls.now) (contract one.contr) }
    requires triable { IsTriable (declarations to.now.choice.decls.now) (contract one.contr) }
    requires admitted { IsAdmitted (declarations to.now.choice.decls.now) to.now.fixings.now }
    ensures { OnOk result (AddsRest to.now (one.entry.name.now, contract one.entry.contr)
        kept.old kept.new) }
{
    if kept.missing.is_some() {
        return Ok(());
    }
    let NextContract { name, contr } = one;
    match advance_contract(alloc, to, contr) {
        Ok(advanced) => keep(alloc, to, name, advanced, &mut kept.left),
        Err(Stop::Fault(fault)) => {
            kept.missing = Some(fault);
            Ok(())
        }
        Err(Stop::NoMemory) => Err(NoMemory),
    }
}

// The same of the next contract that is read, if it is used and none so far is refused.
fn advance_next(
    alloc: Global,
    to: &AdvanceTo<'_>,
    next: NextContract<'_>,
    tried: &mut Tried,
    kept: &mut KeptRest,
) -> Result<(), NoMemory>
    requires sound { IsSoundContract (declarations to.now.choice.decls.now) (contract next.contr) }
    requires admitted { IsAdmitted (declarations to.now.choice.decls.now) to.now.fixings.now }
    ensures { OnOk result (Steps (declarations to.now.choice.decls.now) (selection to.now.choice)
        (HasRests to.now kept.old) (HasRests to.now kept.new)
        (next.entry.name.now, contract next.entry.contr) tried.old tried.new) }
{
    let Some(one) = choose(alloc, &to.choice, next, tried)? else {
        return Ok(());
    };
    advance_one(alloc, to, one, kept)
}

// The declarations of what is left.
fn rest_decls(alloc: Global, decls: &Decls, day: u32) -> Result<Decls, NoMemory>
    requires { day ≤ last_start }
    ensures { IfOk result (λ rest. declarations rest
        ≡ rest_declarations (declarations decls.now) day) }
{
    let mut rest = decls.copy(alloc)?;
    rest.start = day;
    Ok(rest)
}

// Nothing that is due, and the text of what is left up to its contracts.
fn nothing_left(alloc: Global, to: &AdvanceTo<'_>) -> Result<Left, NoMemory>
    ensures { IfOk result (λ left. AreLeft to.now left []) }
{
    let decls = rest_decls(alloc, to.choice.decls, to.day)?;
    let mut rest = Vec::new(alloc);
    print_beginning(alloc, &mut rest, &decls)?;
    Ok(Left {
        due: Vec::new(alloc),
        rest,
    })
}

// What comes of the contracts of a text, and what is kept of them.
fn advance_all(
    alloc: Global,
    to: &AdvanceTo<'_>,
    reader: &mut ContractReader<'_>,
) -> Result<(Tried, KeptRest), Stop>
    requires begun { HasBegun (declarations to.now.choice.decls.now) reader.old }
    requires admitted { IsAdmitted (declarations to.now.choice.decls.now) to.now.fixings.now }
    ensures { AnswersKeptRest to.now reader.old result }
{
    let mut tried = nothing_tried(to.choice.named);
    let left = nothing_left(alloc, to)?;
    let mut kept = KeptRest {
        left,
        missing: None,
    };
    while let Some(next) = read_next(alloc, to.choice.decls, reader)? {
        advance_next(alloc, to, next, &mut tried, &mut kept)?;
    }
    Ok((tried, kept))
}

// What is due, and behind it the text of what is left; or the first stop: at the text, by the name,
// by acceptance, or at a read that is not fixed.
fn left_text(
    alloc: Global,
    to: &AdvanceTo<'_>,
    reader: &mut ContractReader<'_>,
) -> Result<Vec<u8>, Stop>
    requires begun { HasBegun (declarations to.now.choice.decls.now) reader.old }
    requires admitted { IsAdmitted (declarations to.now.choice.decls.now) to.now.fixings.now }
    ensures { AnswersLeft to.now reader.old result }
{
    let (tried, kept) = advance_all(alloc, to, reader)?;
    first_stop(alloc, to.choice.named, tried, kept.missing)?;
    let Left { due, rest } = kept.left;
    let mut text = due;
    text.extend_from_slice(&rest)?;
    Ok(text)
}

/// What is due of the contracts of a text before the day of a word, and the text of what is left on
/// it, with a renaming if there is one; or what stops a command from the name that is asked for on.
/// Each contract is read, tried, advanced and dropped before the next.
pub fn carry(
    alloc: Global,
    choice: Choice<'_>,
    reader: &mut ContractReader<'_>,
    asked: &Advance<'_>,
    renaming: Option<Renaming<'_>>,
    table: &[u8],
) -> Result<Vec<u8>, Stop>
    requires begun { HasBegun (declarations choice.decls.now) reader.old }
    requires table { length table.now ≤ longest_file }
    requires all { (selection choice).only ≡ None }
    ensures { AnswersCarried choice.entry renaming.entry (advance_by asked.now) (Some table.now)
        reader.old result }
{
    match new_day(alloc, choice.decls, asked.to) {
        Ok(day) => {
            let fixings = fixings_over(alloc, &choice, reader, Some(table))?;
            let to = AdvanceTo {
                choice,
                fixings: &fixings,
                day,
                renaming,
            };
            left_text(alloc, &to, reader)
        }
        Err(stop) => Err(behind_names(alloc, &choice, reader, stop)),
    }
}

/// What `advance` writes of a portfolio over the fixings of a table: what is due before the
/// new day, and the text of the portfolio that is left on it; or what stops it. Each contract is
/// read, tried, advanced and dropped before the next.
pub fn advance_text(alloc: Global, asked: &Advance<'_>, inputs: Inputs<'_>) -> Result<Vec<u8>, Stop>
    ensures { GoesDone (advance_course (advance_by asked.now) (bytes_of inputs.entry.files.now))
        result }
{
    let (decls, mut reader) = start_reading(alloc, inputs)?;
    let setting = defaults(alloc, &decls)?;
    let choice = all_contracts(&decls, &setting, None);
    carry(alloc, choice, &mut reader, asked, None, inputs.file(1))
}
