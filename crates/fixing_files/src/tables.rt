//! Tables of fixings, record by record.

ghost use Rattle.std.specs.Prelude.{◌≡◌, ◌≤◌, length, IfOk};
ghost use Rattle.term_model.specs.Limits.{longest_file};
ghost use Rattle.csv.specs.Records.{fields_of};
ghost use Rattle.term_model.specs.Declarations.{declarations};
ghost use Rattle.term_model.specs.Environments.{IsAdmitted};
ghost use Rattle.fixing_files.specs.Gathering.{Gathers, Takes, missing};
ghost use Rattle.fixing_files.specs.Rows.{AreRuns};
ghost use Rattle.fixing_files.specs.Tables.{Answers, IsPlaced, table_of};

use crate::blocks::blocks_of_all;
use crate::faults::{RowErr, RowFault, RowKind, refused};
use crate::fixings::Fixings;
use crate::folds::{AllSettled, settle_all};
use crate::fronts::{Front, front_of};
use crate::reader::{MOST_READS, reader_of};
use crate::records::{entry_of, is_header};
use crate::rows::{Row, Run, take_row};
use csv::ByteRecord;
use decimal::NoMemory;
use std::alloc::Global;
use term_model::Decls;

// Takes the record of this number, or answers the rule that it breaks by itself.
fn take(
    alloc: Global,
    decls: &Decls,
    runs: &mut Vec<Run>,
    number: u32,
    record: &ByteRecord,
) -> Result<Option<RowKind>, NoMemory>
    requires runs { AreRuns runs.old.items }
    requires number { 1 ≤ number }
    ensures { IfOk result (λ broken.
        Takes (declarations decls.now) number (fields_of «record».now)
        runs.old.items runs.new.items broken) }
{
    if number == 1 {
        if is_header(record) {
            return Ok(None);
        }
        return Ok(Some(RowKind::Shape));
    }
    match entry_of(decls, record) {
        Ok((place, value)) => {
            let row = Row {
                day: place.day,
                number,
                value,
            };
            take_row(alloc, runs, place.label, row)?;
            Ok(None)
        }
        Err(kind) => Ok(Some(kind)),
    }
}

// The fault of a table without records.
fn missing(records: u32) -> Option<RowFault>
    ensures { result ≡ missing records }
{
    if records == 0 {
        Some(RowFault {
            row: 1,
            kind: RowKind::Shape,
        })
    } else {
        None
    }
}

// The rows of a table up to the first record that breaks a rule by itself, and that fault.
#[derive(Drop)]
struct Gathered {
    runs: Vec<Run>,
    fault: Option<RowFault>,
}

// Reads the rows of a table: the plain ones that it begins with in one pass over their bytes, and
// what follows them one record after the other.
fn gather(alloc: Global, bytes: &[u8], decls: &Decls) -> Result<Gathered, NoMemory>
    requires { length bytes.now ≤ longest_file }
    ensures { IfOk result (λ g.
        Gathers (declarations decls.now) (table_of bytes.now) g.runs.items g.fault) }
{
    let Front {
        records,
        mut runs,
        rest,
    } = front_of(alloc, bytes, decls)?;
    let mut reader = reader_of(alloc, rest);
    let mut record = ByteRecord::new(alloc);
    for read in records..MOST_READS {
        let Ok(found) = reader.read_byte_record(&mut record) else {
            return Err(NoMemory);
        };
        if !found {
            let fault = missing(read);
            return Ok(Gathered { runs, fault });
        }
        let row = read + 1;
        let broken = take(alloc, decls, &mut runs, row, &record)?;
        match broken {
            None => {}
            Some(kind) => {
                let fault = Some(RowFault { row, kind });
                return Ok(Gathered { runs, fault });
            }
        }
    }
    Err(NoMemory)
}

/// The fixings of a table of at most 16,777,216 bytes: a header `label,day,value`, and then a
/// record for each value, of a declared label on a day of the portfolio or a date. A number has at
/// most as many decimals as its label and lies within its bounds. Two records may say the same of
/// one place. `Row` names the first record that breaks a rule, by its number from 1, the header
/// included. The rows that the table begins with are read in one pass, as long as they are plain
/// ones, and what follows record by record. The rows of a label are sorted only where their days do
/// not rise.
pub fn read_fixings(alloc: Global, bytes: &[u8], decls: &Decls) -> Result<Fixings, RowErr>
    requires { length bytes.now ≤ longest_file }
    ensures answer { Answers (declarations decls.now) (table_of bytes.now) result }
    ensures admitted { IfOk result (λ fixings. IsAdmitted (declarations decls.now) fixings) }
    ensures placed { IfOk result (λ fixings. IsPlaced (declarations decls.now) fixings) }
{
    let Ok(Gathered { runs, fault }) = gather(alloc, bytes, decls) else {
        return Err(RowErr::NoMemory);
    };
    match settle_all(alloc, runs) {
        Ok(AllSettled::Clashes(clash)) => Err(refused(
            clash.number,
            RowKind::Conflict {
                earlier: clash.earlier,
            },
        )),
        Ok(AllSettled::Runs(runs)) => match fault {
            Some(fault) => Err(RowErr::Row(fault)),
            None => match blocks_of_all(alloc, &runs) {
                Ok(blocks) => Ok(Fixings {
                    alloc,
                    runs,
                    blocks,
                }),
                Err(_) => Err(RowErr::NoMemory),
            },
        },
        Err(_) => Err(RowErr::NoMemory),
    }
}
