//! What keeps a command from its answer.

ghost use Rattle.std.specs.Prelude.{◌≡◌};
ghost use Rattle.command_courses.specs.Stopping.{stop_of_text};
ghost use Rattle.command_courses.specs.declared.stop.Stop.TheVariants.{NoMemory as lacks_memory};

use contract_parse::ParseErr;
use decimal::NoMemory;
use report::Fault;
use std::alloc::{AllocError, AllocFailed};

/// Why a command has no answer of its own.
#[derive(Debug, Drop)]
pub enum Stop {
    /// The fault of which the run writes the line, and which gives its status.
    Fault(Fault),
    /// Out of memory.
    NoMemory,
}

impl From<ParseErr> for Stop {
    ghost from_gives = { λ error s. s ≡ stop_of_text error };

    fn from(error: ParseErr) -> Stop {
        match error {
            ParseErr::Text(fault) => Stop::Fault(Fault::Text(fault)),
            ParseErr::NoMemory => Stop::NoMemory,
        }
    }
}

impl From<NoMemory> for Stop {
    ghost from_gives = { λ _ e. e ≡ lacks_memory };

    fn from(_: NoMemory) -> Stop {
        Stop::NoMemory
    }
}

impl From<AllocError> for Stop {
    ghost from_gives = { λ _ e. e ≡ lacks_memory };

    fn from(_: AllocError) -> Stop {
        Stop::NoMemory
    }
}

impl<T: Drop> From<AllocFailed<T>> for Stop {
    ghost from_gives = { λ _ e. e ≡ lacks_memory };

    fn from(_: AllocFailed<T>) -> Stop {
        Stop::NoMemory
    }
}
