//! Why a text is refused.
ghost use Rattle.std.specs.Prelude.{◌≡◌};
ghost use Rattle.contract_parse.specs.declared.faults.PartErr.TheVariants.{NoMemory as lacks_memory};

use contract_grammar::{TextFault, TextKind};
use decimal::NoMemory;
use std::alloc::{AllocError, AllocFailed};

/// Why no value was read from a text.
#[derive(Clone, Copy, Debug, PartialEq, Eq)]
pub enum ParseErr {
    Text(TextFault),
    NoMemory,
}

/// A fault, and how many bytes of the text are left where its token begins.
#[derive(Clone, Copy)]
pub struct Refusal {
    pub kind: TextKind,
    pub left: usize,
}

/// Why a part of a text was not read.
#[derive(Clone, Copy)]
pub enum PartErr {
    Refused(Refusal),
    NoMemory,
}

impl From<AllocError> for PartErr {
    ghost from_gives = { λ _ e. e ≡ lacks_memory };

    fn from(_: AllocError) -> PartErr {
        PartErr::NoMemory
    }
}

impl<T: Drop> From<AllocFailed<T>> for PartErr {
    ghost from_gives = { λ _ e. e ≡ lacks_memory };

    fn from(_: AllocFailed<T>) -> PartErr {
        PartErr::NoMemory
    }
}

impl From<NoMemory> for PartErr {
    ghost from_gives = { λ _ e. e ≡ lacks_memory };

    fn from(_: NoMemory) -> PartErr {
        PartErr::NoMemory
    }
}
