//! The fixings of a table, and what stops a command that lacks one of them.

ghost use Rattle.term_model.specs.Declarations.{declarations};
ghost use Rattle.command_words.specs.Arguments.{given_text};
ghost use Rattle.command_courses.specs.FixingTables.{AnswersFixings, IsShortTable, IsStopOf};
ghost use Rattle.command_courses.specs.Names.{label_name};

use crate::names::label_name;
use crate::stop::Stop;
use decimal::NoMemory;
use fixing_files::{Fixings, RowErr, read_fixings};
use flow_eval::FlowErr;
use report::Fault;
use std::alloc::Global;
use term_model::{Decls, Name};

/// The fixings of a table, or none where none is named.
pub fn fixings_of(alloc: Global, decls: &Decls, table: Option<&[u8]>) -> Result<Fixings, Stop>
    requires { IsShortTable (given_text table) }
    ensures { AnswersFixings (declarations decls.now) (given_text table.entry) result }
{
    let Some(bytes) = table else {
        return Ok(Fixings::none(alloc));
    };
    match read_fixings(alloc, bytes, decls) {
        Ok(fixings) => Ok(fixings),
        Err(RowErr::Row(fault)) => Err(Stop::Fault(Fault::Row { place: 2, fault })),
        Err(RowErr::NoMemory) => Err(Stop::NoMemory),
    }
}

/// What stops a command that has no flows.
pub fn stop_of(alloc: Global, decls: &Decls, error: FlowErr) -> Stop
    ensures { IsStopOf (declarations decls.now) error result }
{
    match error {
        FlowErr::Missing { label, day } => match Name::new(alloc, label_name(decls, label)) {
            Ok(label) => Stop::Fault(Fault::Missing { label, day }),
            Err(NoMemory) => Stop::NoMemory,
        },
        FlowErr::NoMemory => Stop::NoMemory,
    }
}
