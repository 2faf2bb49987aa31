//! Why a contract has no flow table.

ghost use Rattle.std.specs.Prelude.{◌≡◌};
ghost use Rattle.flow_eval.specs.Faults.{lacks_memory, lacks_place};

use decimal::NoMemory;
use term_model::Missing;

/// Why there is no flow table: the contract reads an observable on a day on which it is not fixed,
/// or memory is short.
#[derive(Clone, Copy, Debug, PartialEq, Eq, Drop)]
pub enum FlowErr {
    Missing { label: u32, day: i64 },
    NoMemory,
}

impl From<NoMemory> for FlowErr {
    ghost from_gives = { λ _ e. e ≡ lacks_memory };

    fn from(_error: NoMemory) -> FlowErr {
        FlowErr::NoMemory
    }
}

impl From<Missing> for FlowErr {
    ghost from_gives = { λ m e. e ≡ lacks_place m };

    fn from(missing: Missing) -> FlowErr {
        FlowErr::Missing {
            label: missing.label,
            day: missing.day,
        }
    }
}
