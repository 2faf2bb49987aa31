//! The command `novate`.

ghost use Rattle.term_model.specs.Declarations.{declarations};
ghost use Rattle.command_words.specs.Words.{novate_by};
ghost use Rattle.command_courses.specs.Inputs.{bytes_of};
ghost use Rattle.command_courses.specs.Stopping.{GoesDone};
ghost use Rattle.lifecycle_commands.specs.NovateCourse.{novate_course};
ghost use Rattle.lifecycle_commands.specs.NovateParts.{AnswersRenaming};

use crate::advance::carry;
use crate::advance_to::Renaming;
use command_courses::{Inputs, Stop, index_of};
use command_words::Novate;
use std::alloc::Global;
use term_model::{Decls, defaults};
use used_contracts::{all_contracts, behind_names, start_reading};

// The renaming that is asked for, where both parties are declared.
fn renaming_of<'a>(alloc: Global, decls: &Decls, asked: &Novate<'a>) -> Result<Renaming<'a>, Stop>
    ensures { AnswersRenaming (declarations decls.now) (novate_by asked.now) result }
{
    let old = index_of(alloc, &decls.parties, asked.old)?;
    let new = index_of(alloc, &decls.parties, asked.new)?;
    Ok(Renaming {
        contract: asked.contract,
        old,
        new,
    })
}

/// What `novate` writes of a portfolio over the fixings of a table: what `advance` does, but
/// that what is left of the named contract has the new party in the place of the old one; or what
/// stops it. That a name is unknown is told before a party that is not declared, so the contracts
/// that are left are read at such a party.
pub fn novate_text(alloc: Global, asked: &Novate<'_>, inputs: Inputs<'_>) -> Result<Vec<u8>, Stop>
    ensures { GoesDone (novate_course (novate_by asked.now) (bytes_of inputs.entry.files.now))
        result }
{
    let (decls, mut reader) = start_reading(alloc, inputs)?;
    let setting = defaults(alloc, &decls)?;
    let choice = all_contracts(&decls, &setting, Some(asked.contract));
    match renaming_of(alloc, &decls, asked) {
        Ok(renaming) => carry(
            alloc,
            choice,
            &mut reader,
            &asked.advance,
            Some(renaming),
            inputs.file(1),
        ),
        Err(stop) => Err(behind_names(alloc, &choice, &mut reader, stop)),
    }
}
