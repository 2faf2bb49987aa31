//! Runs of the commands as rows of data. The program reads rows from its standard input (`stdin`
//! beside this folder), calls `contract_cli::run` for each over files and a sink in memory, and
//! prints what each run has written, with its status. It makes the calls of `library_rows` too,
//! whose rows stand behind those of runs. The gate compares that with `stdout`, byte for byte. To
//! add a row, write its lines into `stdin`, and into `stdout` what they must print: from the rules
//! that are written, and never from the program's own output.
//!
//! ```text
//! == a loan pays today and after 90 days
//! file loan.txt = loan
//! failing reads 2
//! run|flows|loan.txt
//! ```
//!
//! prints, with `text loan` and the lines of that text above it,
//!
//! ```text
//! == a loan pays today and after 90 days
//! run|flows|loan.txt: 0 Done
//! | loan,0,A,B,EUR,100.00
//! | loan,90,B,A,EUR,105.00
//! ```
//!
//! Rows, texts, files and pieces are those of `row_language`; in a row nothing fails at first. A
//! further line is one of these.
//!
//! - `failing reads N N ..`: the reads with these numbers fail, counted from 1
//! - `failing writes N N ..`: the writes with these numbers fail, counted from 1
//! - `most N`, `room N`: the sink takes at most N bytes a write, or has room for N bytes in all
//! - `first N`: of what a sink holds, only the first N bytes are printed
//! - `run|WORD|WORD`: a run of these words over fresh files and a fresh sink. `run` has no words,
//!   and `run|` an empty one
//! - `again|WORD|WORD`: a run over the files and the sink as the run before it has left them
//! - `fronts FILE|WORD|WORD`: a run for each proper front of the file, of 0 bytes, 1 byte and so
//!   on, of which only the statuses are printed
//! - `keep NAME`: all that the sink holds after the last run becomes a text of this name
//! - a call of a library, as the head of `library_rows` says
//!
//! A run prints its line with the number and the name of its status, and then what the sink holds.
//! Any other line ends the program with status 1 and a message that has the line's number.
#![tactic(auto)]

mod answer;
mod desk;
mod runs;

use anyhow::{Context, Result};
use runs::Runs;
use std::io;

fn main(rt: HostRuntime) -> Result<()> {
    let alloc = rt.alloc();
    let text = io::read_to_string(alloc, rt.reader())?;
    let mut runs = Runs::new(alloc);
    for (place, line) in text.as_str().split('\n').enumerate() {
        let mut out = String::new(alloc);
        runs.take(line, &mut out)
            .context(format_args!("line {}", place.saturating_add(1)))?;
        rt.print(out)?;
    }
    Ok(())
}
