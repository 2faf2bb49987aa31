//! What is wrong with a line of the rows.

use decimal::NoMemory;
use std::alloc::{AllocError, AllocFailed};
use thiserror::Error;

/// Why the program ends at a line.
#[derive(Clone, Copy, Debug, PartialEq, Eq, Error)]
pub enum RowErr {
    /// A line of no known form.
    #[error("this is no line of a row")]
    Form,
    /// A number that is no decimal number of 64 bits.
    #[error("a number is wanted here")]
    Number,
    /// A backslash without two hexadecimal digits behind it.
    #[error("two hexadecimal digits are wanted behind a backslash")]
    Escape,
    /// A line of a text where neither `text` nor `file` stands before it.
    #[error("no text is open here")]
    Closed,
    /// A name of no text, or of one that comes later.
    #[error("no text has this name")]
    NoText,
    /// A second text of one name.
    #[error("another text has this name")]
    Twice,
    /// A name of no file of the row.
    #[error("no file of the row has this name")]
    NoFile,
    /// Something that is asked of the run before, where there is none.
    #[error("no run stands before this in the row")]
    NoRun,
    /// A sink that takes no byte.
    #[error("a write takes one byte at least")]
    Most,
    /// A call of no known name.
    #[error("no call has this name")]
    NoCall,
    /// A text that the call does not take.
    #[error("a text is none that the call takes")]
    Text,
    /// A contract that is not accepted.
    #[error("the contract is refused")]
    Refused,
    /// A number that the call does not take.
    #[error("a number is out of the range of the call")]
    Range,
    /// Out of memory.
    #[error("out of memory")]
    NoMemory,
}

impl From<AllocError> for RowErr {
    fn from(_error: AllocError) -> RowErr {
        RowErr::NoMemory
    }
}

impl<T: Drop> From<AllocFailed<T>> for RowErr {
    fn from(_error: AllocFailed<T>) -> RowErr {
        RowErr::NoMemory
    }
}

impl From<NoMemory> for RowErr {
    fn from(_error: NoMemory) -> RowErr {
        RowErr::NoMemory
    }
}
