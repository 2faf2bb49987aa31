//! Why there are no flows.

use contract_parse::ParseErr;
use flow_eval::FlowErr;
use term_model::CheckErr;
use thiserror::Error;

/// What stopped the program.
#[derive(Clone, Copy, Debug, Drop, Error)]
pub enum Fault {
    #[error("the text is that of no portfolio")]
    Text,
    #[error("a contract is not accepted, or names a template")]
    Refused,
    #[error("a contract reads what is not fixed")]
    Missing,
    #[error("out of memory")]
    NoMemory,
}

impl From<ParseErr> for Fault {
    fn from(error: ParseErr) -> Fault {
        match error {
            ParseErr::Text(_) => Fault::Text,
            ParseErr::NoMemory => Fault::NoMemory,
        }
    }
}

impl From<CheckErr> for Fault {
    fn from(error: CheckErr) -> Fault {
        match error {
            CheckErr::Refused { .. } => Fault::Refused,
            CheckErr::NoMemory => Fault::NoMemory,
        }
    }
}

impl From<FlowErr> for Fault {
    fn from(error: FlowErr) -> Fault {
        match error {
            FlowErr::Missing { .. } => Fault::Missing,
            FlowErr::NoMemory => Fault::NoMemory,
        }
    }
}
