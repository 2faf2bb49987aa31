//! The contracts of a portfolio's text, read one at a time.

ghost use Rattle.std.specs.Prelude.{◌≡◌, IfOk};
ghost use Rattle.term_model.specs.Declarations.{declarations};
ghost use Rattle.term_model.specs.Instances.{HasNumbers, HasSmallSums, IsSetting, instance};
ghost use Rattle.term_model.specs.Terms.{contract};
ghost use Rattle.command_courses.specs.Inputs.{bytes_of, file_at};
ghost use Rattle.used_contracts.specs.ReadingParts.{LeavesLess, ReadsNext, StartsReading};

use command_courses::{Inputs, Stop};
use contract_parse::{ContractReader, NextContract, next_contract, start_contracts};
use decimal::NoMemory;
use std::alloc::Global;
use term_core::{has_only_numbers, instantiate};
use term_model::{Contr, Decls, Setting};

/// The declarations of a command's first file, and a reader that stands before its first contract.
pub fn start_reading<'a>(
    alloc: Global,
    inputs: Inputs<'a>,
) -> Result<(Decls, ContractReader<'a>), Stop>
    ensures { StartsReading (file_at (bytes_of inputs.entry.files.now) 0) result }
{
    let start = start_contracts(alloc, inputs.file(0))?;
    Ok(start)
}

/// The next contract of a text, none behind the last.
pub fn read_next<'a>(
    alloc: Global,
    decls: &Decls,
    reader: &mut ContractReader<'a>,
) -> Result<Option<NextContract<'a>>, Stop>
    ensures next { ReadsNext (declarations decls.now) reader.old reader.new result }
    ensures shorter { LeavesLess reader.old reader.new result }
{
    let next = next_contract(alloc, decls, reader)?;
    Ok(next)
}

/// The contract with the setting's numbers for its names. What names no template is handed back as
/// it is.
pub fn made_of(alloc: Global, contr: Contr, setting: &Setting) -> Result<Contr, NoMemory>
    requires numbers { HasNumbers setting.now.days.items (contract contr) }
    requires sums { HasSmallSums (contract contr) }
    requires small { IsSetting setting.now.days.items }
    ensures { IfOk result (λ made. contract made
        ≡ instance setting.now.days.items (contract contr)) }
{
    if has_only_numbers(&contr) {
        Ok(contr)
    } else {
        instantiate(alloc, &contr, setting)
    }
}
