//! The command `migrate`.

ghost use Rattle.std.specs.Prelude.{◌≡◌, ◌++◌, [], OnOk};
ghost use Rattle.term_model.specs.Declarations.{declarations};
ghost use Rattle.term_model.specs.Terms.{contract};
ghost use Rattle.contract_grammar.specs.Names.{declared_by};
ghost use Rattle.contract_print.specs.Canon.{contract_text};
ghost use Rattle.contract_print.specs.Migrated.{in_version_two};
ghost use Rattle.contract_grammar.specs.Writable.{IsWritableTerm};
ghost use Rattle.command_courses.specs.Inputs.{bytes_of};
ghost use Rattle.command_courses.specs.Stopping.{GoesDone};
ghost use Rattle.used_contracts.specs.ReadingParts.{HasBegun};
ghost use Rattle.text_commands.specs.MigrateCourse.{migrate_course};
ghost use Rattle.text_commands.specs.MigrateParts.{AnswersMigrated};

use command_courses::{Inputs, Stop};
use contract_parse::{ContractReader, NextContract};
use contract_print::{print_beginning, print_contract};
use decimal::NoMemory;
use std::alloc::Global;
use term_model::Decls;
use used_contracts::{read_next, start_reading};

// Declarations in version 2, with all else as it is.
fn in_version_two(decls: Decls) -> Decls
    ensures { declarations result ≡ in_version_two (declarations decls) }
{
    Decls {
        version: 2,
        amounts: decls.amounts,
        origin: decls.origin,
        start: decls.start,
        parties: decls.parties,
        assets: decls.assets,
        labels: decls.labels,
        templates: decls.templates,
    }
}

// Prints a contract that is read, and drops it.
fn print_next(
    alloc: Global,
    out: &mut Vec<u8>,
    printed: &Decls,
    next: NextContract<'_>,
) -> Result<(), NoMemory>
    requires { IsWritableTerm (contract next.contr) }
    ensures { OnOk result (out.new.items ≡ out.old.items
        ++ contract_text (declared_by (declarations printed.now) []) next.entry.name.now
        (contract next.entry.contr)) }
{
    print_contract(alloc, out, printed, next.name, &next.contr)
}

// The text of a portfolio with other declarations and the contracts that are left of a text.
fn printed_with(
    alloc: Global,
    printed: &Decls,
    decls: &Decls,
    reader: &mut ContractReader<'_>,
) -> Result<Vec<u8>, Stop>
    requires begun { HasBegun (declarations decls.now) reader.old }
    requires version { declarations printed.now ≡ in_version_two (declarations decls.now) }
    ensures { AnswersMigrated (declarations decls.now) reader.old result }
{
    let mut text = Vec::new(alloc);
    print_beginning(alloc, &mut text, printed)?;
    while let Some(next) = read_next(alloc, decls, reader)? {
        print_next(alloc, &mut text, printed, next)?;
    }
    Ok(text)
}

/// What `migrate` writes of a portfolio: its text in version 2; or the fault of the text. Each
/// contract is read, printed and dropped before the next.
pub fn migrated_text(alloc: Global, inputs: Inputs<'_>) -> Result<Vec<u8>, Stop>
    ensures { GoesDone (migrate_course (bytes_of inputs.entry.files.now)) result }
{
    let (decls, mut reader) = start_reading(alloc, inputs)?;
    let two = in_version_two(decls.copy(alloc)?);
    printed_with(alloc, &two, &decls, &mut reader)
}
