//! The fixings of a table, behind the contracts of a text.

ghost use Rattle.std.specs.Prelude.{◌≡◌, IfOk};
ghost use Rattle.term_model.specs.Declarations.{declarations};
ghost use Rattle.command_words.specs.Arguments.{given_text};
ghost use Rattle.command_courses.specs.FixingTables.{IsShortTable};
ghost use Rattle.used_contracts.specs.FixingsOver.{AnswersFixingsOver};
ghost use Rattle.used_contracts.specs.ReadingParts.{HasBegun};

use crate::choice::Choice;
use crate::choosing::behind_acceptance;
use command_courses::{Stop, fixings_of};
use contract_parse::ContractReader;
use fixing_files::Fixings;
use std::alloc::Global;

/// The fixings of a table, if each of its rows is taken. If not, the contracts that are left are
/// read and tried, for a fault of theirs comes first.
pub fn fixings_over(
    alloc: Global,
    choice: &Choice<'_>,
    reader: &mut ContractReader<'_>,
    table: Option<&[u8]>,
) -> Result<Fixings, Stop>
    requires begun { HasBegun (declarations choice.now.decls.now) reader.old }
    requires table { IsShortTable (given_text table) }
    ensures over { AnswersFixingsOver choice.now reader.old (given_text table.entry) result }
    ensures unread { IfOk result (λ fixings. reader.new ≡ reader.old) }
{
    match fixings_of(alloc, choice.decls, table) {
        Ok(fixings) => Ok(fixings),
        Err(stop) => Err(behind_acceptance(alloc, choice, reader, stop)),
    }
}
