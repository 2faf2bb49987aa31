//! The command `check`.

ghost use Rattle.std.specs.Prelude.{◌≡◌, IfOk, OnOk};
ghost use Rattle.term_model.specs.Declarations.{declarations};
ghost use Rattle.term_model.specs.Terms.{contract};
ghost use Rattle.term_model.specs.Instances.{declared_numbers};
ghost use Rattle.contract_parse.specs.NextContracts.{IsSoundContract};
ghost use Rattle.command_courses.specs.Inputs.{bytes_of, file_at};
ghost use Rattle.command_courses.specs.Stopping.{Goes};
ghost use Rattle.used_contracts.specs.ReadingParts.{HasBegun};
ghost use Rattle.used_contracts.specs.UsedContracts.{at_defaults};
ghost use Rattle.used_contracts.specs.UsedParts.{IsTriable};
ghost use Rattle.text_commands.specs.CheckCourse.{check_course};
ghost use Rattle.text_commands.specs.CheckParts.{AddsVerdict, AnswersAllVerdicts, AnswersCheck};
ghost use Rattle.text_commands.specs.CheckParts.{AppendsVerdict};

use command_courses::{Answer, Inputs, Status, Stop};
use contract_parse::{ContractReader, NextContract};
use decimal::NoMemory;
use report::check_line;
use std::alloc::Global;
use term_model::{Contr, Decls, Setting, defaults};
use used_contracts::{made_of, read_next, start_reading, verdict};

/// The verdicts on contracts, a line each, and whether all of them are accepted.
#[derive(Drop)]
pub struct CheckText {
    pub text: Vec<u8>,
    pub all_accepted: bool,
}

// Appends the line of a contract, and answers whether it is accepted.
fn append_verdict(
    alloc: Global,
    out: &mut Vec<u8>,
    decls: &Decls,
    name: &[u8],
    contr: &Contr,
) -> Result<bool, NoMemory>
    requires { IsTriable (declarations decls.now) (contract contr.now) }
    ensures { IfOk result (λ accepted. AppendsVerdict (declarations decls.now)
        (name.now, contract contr.now) accepted out.old.items out.new.items) }
{
    let verdict = verdict(alloc, decls, contr)?;
    check_line(alloc, out, decls, name, &verdict)?;
    Ok(verdict.is_ok())
}

// Puts the verdict on a contract, at the defaults, behind those before it.
fn add_verdict(
    alloc: Global,
    decls: &Decls,
    setting: &Setting,
    next: NextContract<'_>,
    check: &mut CheckText,
) -> Result<(), NoMemory>
    requires sound { IsSoundContract (declarations decls.now) (contract next.contr) }
    requires defaults { setting.now.days.items ≡ declared_numbers (declarations decls.now) }
    ensures { OnOk result (AddsVerdict (declarations decls.now)
        (at_defaults (declarations decls.now) (next.entry.name.now, contract next.entry.contr))
        check.old check.new) }
{
    let contr = made_of(alloc, next.contr, setting)?;
    let accepted = append_verdict(alloc, &mut check.text, decls, next.name, &contr)?;
    check.all_accepted = check.all_accepted && accepted;
    Ok(())
}

// The verdicts on the contracts of a text, in their order.
fn all_verdicts(
    alloc: Global,
    decls: &Decls,
    setting: &Setting,
    reader: ContractReader<'_>,
) -> Result<CheckText, Stop>
    requires begun { HasBegun (declarations decls.now) reader }
    requires defaults { setting.now.days.items ≡ declared_numbers (declarations decls.now) }
    ensures { AnswersAllVerdicts (declarations decls.now) reader.entry result }
{
    let mut reader = reader;
    let mut check = CheckText {
        text: Vec::new(alloc),
        all_accepted: true,
    };
    while let Some(next) = read_next(alloc, decls, &mut reader)? {
        add_verdict(alloc, decls, setting, next, &mut check)?;
    }
    Ok(check)
}

// The verdicts on the contracts of a portfolio, in their order.
fn verdicts(alloc: Global, inputs: Inputs<'_>) -> Result<CheckText, Stop>
    ensures { AnswersCheck (file_at (bytes_of inputs.entry.files.now) 0) result }
{
    let (decls, reader) = start_reading(alloc, inputs)?;
    let setting = defaults(alloc, &decls)?;
    all_verdicts(alloc, &decls, &setting, reader)
}

/// What `check` answers: the verdicts on the contracts of a portfolio, with the status that says
/// whether all are accepted. Each contract is read, tried and dropped before the next.
pub fn check_text(alloc: Global, inputs: Inputs<'_>) -> Result<Answer, Stop>
    ensures { Goes (check_course (bytes_of inputs.entry.files.now)) result }
{
    let check = verdicts(alloc, inputs)?;
    let status = if check.all_accepted {
        Status::Done
    } else {
        Status::Refused
    };
    Ok(Answer {
        status,
        text: check.text,
    })
}
