//! How a run ended.

ghost use Rattle.std.specs.Prelude.{◌≡◌};
ghost use Rattle.command_courses.specs.Statuses.{number_of, status_of};

use report::Fault;

/// The outcome of a run, with the exit status that the program ends with.
#[derive(Clone, Copy, Debug, PartialEq, Eq)]
pub enum Status {
    /// The whole text was written.
    Done = 0,
    /// A contract that the command uses is not accepted.
    Refused = 1,
    /// The words are no command.
    Usage = 2,
    /// A named file could not be read.
    ReadFault = 3,
    /// The text could not be written whole.
    WriteFault = 4,
    /// A named file is longer than 16,777,216 bytes.
    TooLong = 5,
    /// A text is not in its grammar.
    BadText = 6,
    /// A row of a table is refused.
    BadRow = 7,
    /// A place that is read is not fixed.
    Missing = 8,
    /// Memory did not suffice; nothing was written.
    NoMemory = 9,
    /// A name of the words is not declared.
    UnknownName = 10,
    /// A day of the words is out of range.
    DayRange = 11,
    /// There are so many scenarios that their total need not fit.
    TooMany = 12,
}

impl Status {
    /// The exit status of the program.
    pub fn number(self) -> u8
        ensures { result ≡ number_of self }
    {
        self as u8
    }
}

/// The status of a run that a fault stops.
pub fn status_of(fault: &Fault) -> Status
    ensures { result ≡ status_of fault.now }
{
    match fault {
        Fault::Usage => Status::Usage,
        Fault::Read { .. } => Status::ReadFault,
        Fault::TooLong { .. } => Status::TooLong,
        Fault::Text(_) => Status::BadText,
        Fault::UnknownName { .. } => Status::UnknownName,
        Fault::Day { .. } => Status::DayRange,
        Fault::Refused { .. } => Status::Refused,
        Fault::Row { .. } => Status::BadRow,
        Fault::Missing { .. } | Fault::MissingIn { .. } => Status::Missing,
        Fault::Scenarios { .. } => Status::TooMany,
    }
}
