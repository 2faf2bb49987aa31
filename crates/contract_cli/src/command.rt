//! The command of the words, from the words to the written bytes.

ghost use Rattle.std.specs.Prelude.{◌≡◌, ◌≤◌, ℕ, List, IfOk};
ghost use Rattle.clap.specs.Walk.{texts};
ghost use Rattle.command_courses.specs.Stopping.{Goes, IsAnswerOf};
ghost use Rattle.contract_cli.specs.Headline.{Headline};
ghost use Rattle.contract_cli.specs.RunPromise.{CountsOnlyBy, Meets, run_course};
ghost use Rattle.contract_cli.specs.Seen.{seen, sink_left};

use crate::reading::read_files;
use command_answers::answer_request;
use command_courses::{Answer, Inputs, Status, Stop, fault_answer};
use command_words::{WordsErr, files_of, request_of};
use decimal::NoMemory;
use edge_io::{Files, Sink, write_whole};
use report::Fault;
use std::alloc::Global;

// Reads the words and the named files, and makes the text of the answer.
fn answer_words<'a, F: Files>(
    alloc: Global,
    words: &'a [&'a str],
    files: &mut F,
) -> Result<Answer, Stop>
    ensures answer { Goes (run_course (texts words.entry.now)
        (seen (F.contents files.old) (F.faults files.old) (F.faults files.new))) result }
    ensures kept { (other : List ℕ) → F.contents files.new other ≡ F.contents files.old other }
    ensures counts { CountsOnlyBy (texts words.entry.now)
        (seen (F.contents files.old) (F.faults files.old) (F.faults files.new)) }
{
    let request = match request_of(alloc, words) {
        Ok(request) => request,
        Err(WordsErr::Usage) => return Err(Stop::Fault(Fault::Usage)),
        Err(WordsErr::NoMemory) => return Err(Stop::NoMemory),
    };
    let names = files_of(alloc, &request)?;
    let inputs = read_files(alloc, files, &names)?;
    answer_request(alloc, &request, Inputs { files: &inputs })
}

// The same, with the line of its fault for an answer that there is none of.
fn prepare<'a, F: Files>(
    alloc: Global,
    words: &'a [&'a str],
    files: &mut F,
) -> Result<Answer, NoMemory>
    ensures answer { IfOk result (IsAnswerOf (run_course (texts words.entry.now)
        (seen (F.contents files.old) (F.faults files.old) (F.faults files.new)))) }
    ensures kept { (other : List ℕ) → F.contents files.new other ≡ F.contents files.old other }
    ensures counts { CountsOnlyBy (texts words.entry.now)
        (seen (F.contents files.old) (F.faults files.old) (F.faults files.new)) }
{
    match answer_words(alloc, words, files) {
        Ok(answer) => Ok(answer),
        Err(Stop::Fault(fault)) => fault_answer(alloc, &fault),
        Err(Stop::NoMemory) => Err(NoMemory),
    }
}

/// Runs the command of the words, which are those of the command line without the program's name:
/// reads the named files, each once and in order, makes the whole text, and writes it. `check PORT`
/// writes a line for each contract, in their order, that says whether it is accepted; `flows PORT
/// [FIX] [--until DAY] [--contract NAME] [--net]` writes the flow lines of all contracts, or of the
/// named one, or of their sum, over the fixings, up to the day; `advance PORT FIX --to DAY` writes
/// the flow lines of the days before the day as comments, and the portfolio that is left on it;
/// `payoff PORT --contract NAME [--plain]` writes the code of the named contract, with its payments
/// cut or plain; `value CODE FIX CURVE [T=N].. --at DAY --from P --to Q --asset A` writes the line
/// of what the code is worth on the day between the two parties in the asset; `scenarios CODE SCEN
/// CURVE [T=N].. --at DAY --from P --to Q --asset A --mean MODE` writes what it is worth in each
/// scenario of a table, and the total, the mean, the least and the greatest of these; `migrate
/// PORT` writes the portfolio in version 2; `expand PLANS` writes the portfolio of the contracts
/// that the plans of a schedule file are written for; `positions PORT [FIX] [--until DAY]` writes
/// what each party receives or pays net, and `settle PORT [FIX] [--until DAY]` the lines of
/// payments that settle it; `novate PORT FIX --to DAY --contract NAME --old P --new Q` writes what
/// `advance` writes, with a new party in the place of the old one in the named contract; `sample
/// NUMBER` reads no file and writes the summary of the sample of so many contracts. What stops a
/// command writes the line of its fault.
pub fn run<'a, F: Files, S: Sink>(
    alloc: Global,
    words: &'a [&'a str],
    files: &mut F,
    out: &mut S,
) -> Status
    ensures meets { Meets (texts words.entry.now) (record {
      files = seen (F.contents files.old) (F.faults files.old) (F.faults files.new);
      sink = sink_left (S.taken out.old) (S.taken out.new) (S.faults out.old) (S.faults out.new);
    }) result }
    ensures headline { Headline (texts words.entry.now) (record {
      files = seen (F.contents files.old) (F.faults files.old) (F.faults files.new);
      sink = sink_left (S.taken out.old) (S.taken out.new) (S.faults out.old) (S.faults out.new);
    }) result }
    ensures kept { (other : List ℕ) → F.contents files.new other ≡ F.contents files.old other }
    ensures counts { CountsOnlyBy (texts words.entry.now)
        (seen (F.contents files.old) (F.faults files.old) (F.faults files.new)) }
    ensures later { S.faults out.old ≤ S.faults out.new }
{
    let answer = match prepare(alloc, words, files) {
        Ok(answer) => answer,
        Err(NoMemory) => return Status::NoMemory,
    };
    match write_whole(out, &answer.text) {
        Ok(()) => answer.status,
        Err(_) => Status::WriteFault,
    }
}
