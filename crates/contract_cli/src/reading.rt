//! The files of a command, read in their order.

ghost use Rattle.std.specs.Prelude.{◌≡◌, ◌≤◌, ℕ, List, length};
ghost use Rattle.clap.specs.Walk.{texts};
ghost use Rattle.edge_io.specs.Files.{CountsOnly};
ghost use Rattle.contract_cli.specs.Reading.{AnswersFile, AnswersFiles};
ghost use Rattle.contract_cli.specs.Seen.{CountsOnlyOf, seen};

use command_courses::Stop;
use edge_io::{Files, ReadErr};
use report::Fault;
use std::alloc::Global;
use term_model::LONGEST_FILE;

// The bytes of the file at a place of the command.
fn read_file<F: Files>(alloc: Global, files: &mut F, name: &str, place: u8) -> Result<Vec<u8>, Stop>
    ensures answer { AnswersFile (seen (F.contents files.old) (F.faults files.old)
        (F.faults files.new)) name.now place result }
    ensures kept { (other : List ℕ) → F.contents files.new other ≡ F.contents files.old other }
    ensures counts { CountsOnly (F.contents files.old) (F.faults files.old)
        (F.faults files.new) name.now }
{
    match files.read_all(alloc, name, LONGEST_FILE) {
        Ok(bytes) => Ok(bytes),
        Err(ReadErr::Failed) => Err(Stop::Fault(Fault::Read { place })),
        Err(ReadErr::TooLong) => Err(Stop::Fault(Fault::TooLong { place })),
        Err(ReadErr::NoMemory) => Err(Stop::NoMemory),
    }
}

/// The bytes of the files of these names, in their order. It stops at the first that is not read,
/// or is longer than 16,777,216 bytes; its place is counted from 1.
pub fn read_files<F: Files>(
    alloc: Global,
    files: &mut F,
    names: &[&str],
) -> Result<Vec<Vec<u8>>, Stop>
    requires { length names.now ≤ 255 }
    ensures answer { AnswersFiles (seen (F.contents files.old) (F.faults files.old)
        (F.faults files.new)) (texts names.now) result }
    ensures kept { (other : List ℕ) → F.contents files.new other ≡ F.contents files.old other }
    ensures counts { CountsOnlyOf (texts names.now)
        (seen (F.contents files.old) (F.faults files.old) (F.faults files.new)) }
{
    let mut inputs = Vec::new(alloc);
    for (i, name) in names.iter().enumerate() {
        let bytes = read_file(alloc, files, name, i as u8 + 1)?;
        inputs.push(bytes)?;
    }
    Ok(inputs)
}
