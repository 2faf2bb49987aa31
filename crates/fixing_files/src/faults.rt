//! Why a table is refused.

ghost use Rattle.std.specs.Prelude.{◌≡◌};
ghost use Rattle.fixing_files.specs.declared.faults.RowErr.TheVariants.{Row};

/// The rule that a record breaks. `Conflict` names the first record of the same place, by its
/// number. `Factor`, `Rising` and `Zero` are of tables of discount factors.
#[derive(Clone, Copy, Debug, PartialEq, Eq)]
pub enum RowKind {
    Shape,
    Label,
    Day,
    Value,
    Bounds,
    Conflict { earlier: u32 },
    Factor,
    Rising,
    Zero,
}

/// A record that is refused, by its number in the table, from 1, and the rule that it breaks.
#[derive(Clone, Copy, Debug, PartialEq, Eq)]
pub struct RowFault {
    pub row: u32,
    pub kind: RowKind,
}

/// Why a table was not read.
#[derive(Clone, Copy, Debug, PartialEq, Eq)]
pub enum RowErr {
    Row(RowFault),
    NoMemory,
}

/// The answer that refuses a record.
pub fn refused(row: u32, kind: RowKind) -> RowErr
    ensures { result ≡ Row (record { row = row; kind = kind }) }
{
    RowErr::Row(RowFault { row, kind })
}
