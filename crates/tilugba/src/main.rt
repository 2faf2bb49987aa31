//! Tilugba, the manager for financial contracts between parties: the program, which runs the
//! command of its words over the files that they name.
//!
//! ```text
//! tilugba flows loan.txt
//! ```
//!
//! Promised: the program ends with the number of a status that `contract_cli::run` may have of the
//! words that are passed on (`EndsWithStatus`). Only tested: that these are the words that were
//! typed, one that is empty and two that are equal among them.
#![tactic(auto)]

ghost use Rattle.std.specs.Prelude.{◌≡◌, map, string_bytes, IfOk};
ghost use Rattle.clap.specs.Walk.{texts};
ghost use Rattle.contract_cli.specs.Seen.{seen, sink_left};
ghost use Rattle.tilugba.specs.Ends.{EndsWithStatus};

use contract_cli::{Status, run};
use edge_io::{Files, RealFiles, RealSink, Sink};
use std::alloc::{AllocError, Global};
use std::env;
use std::io::{Error, ErrorKind};
use std::process::ExitCode;

// The exit status where the system does not give the words. No run ends with it.
const NO_WORDS: u8 = 13;

// The words after the program's name.
fn words_of(rt: &HostRuntime) -> Result<Vec<String>, Error> {
    let mut words = Vec::new(rt.alloc());
    for word in env::args(rt)?.skip(1) {
        words.push(word)?;
    }
    Ok(words)
}

// The same words, lent.
fn lent<'a>(alloc: Global, words: &'a [String]) -> Result<Vec<&'a str>, AllocError>
    ensures { IfOk result (λ lent. map (λ word. word.now) lent.items ≡ map
        (λ word. string_bytes word) words.now) }
{
    let mut lent = Vec::new(alloc);
    for word in words {
        lent.push(word.as_str())?;
    }
    Ok(lent)
}

// Runs the command of the words, and ends with the number of the run's status.
fn end<'a, F: Files, S: Sink>(
    alloc: Global,
    words: &'a [&'a str],
    files: &mut F,
    out: &mut S,
) -> ExitCode
    ensures { EndsWithStatus (texts words.entry.now) (record {
      files = seen (F.contents files.old) (F.faults files.old) (F.faults files.new);
      sink = sink_left (S.taken out.old) (S.taken out.new) (S.faults out.old) (S.faults out.new);
    }) result }
{
    let status = run(alloc, words, files, out);
    ExitCode::from(status.number())
}

fn main(rt: HostRuntime) -> ExitCode {
    let words = match words_of(&rt) {
        Ok(words) => words,
        Err(error) if error.kind() == ErrorKind::OutOfMemory => {
            return ExitCode::from(Status::NoMemory.number());
        }
        Err(_) => return ExitCode::from(NO_WORDS),
    };
    let words = match lent(rt.alloc(), &words) {
        Ok(words) => words,
        Err(_) => return ExitCode::from(Status::NoMemory.number()),
    };
    let mut files = RealFiles::new(rt);
    let mut out = RealSink::new(rt);
    end(rt.alloc(), &words, &mut files, &mut out)
}
