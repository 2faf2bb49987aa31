//! The lines of a row that are runs, or say what its files and its sink do.

use crate::answer::{push_answer, push_statuses};
use crate::desk::{Desk, Faults, Front};
use library_rows::make_call;
use row_language::{RowErr, Rows, Taken};
use std::alloc::Global;

/// The rows so far, what fails in the row that is read, and what its last run has left.
#[derive(Drop)]
pub struct Runs<'a> {
    alloc: Global,
    rows: Rows<'a>,
    faults: Faults,
    desk: Option<Desk>,
}

impl<'a> Runs<'a> {
    /// No texts, and a row without files.
    pub fn new(alloc: Global) -> Runs<'a> {
        Runs {
            alloc,
            rows: Rows::new(alloc),
            faults: Faults::none(alloc),
            desk: None,
        }
    }

    /// Does what the next line says, and appends what is to be printed.
    pub fn take(&mut self, line: &'a str, out: &mut String) -> Result<(), RowErr> {
        match self.rows.take(line, out)? {
            Taken::Read => Ok(()),
            Taken::Begun => {
                self.faults = Faults::none(self.alloc);
                self.desk = None;
                Ok(())
            }
            Taken::Other { word, rest } => self.take_other(line, word, rest, out),
        }
    }

    // A line that is none of the rows' own language.
    fn take_other(
        &mut self,
        line: &'a str,
        word: &str,
        rest: &'a str,
        out: &mut String,
    ) -> Result<(), RowErr> {
        match word {
            "failing" | "most" | "room" | "first" => self.faults.set(self.alloc, word, rest),
            "keep" => self.keep(rest),
            "fronts" => self.run_fronts(line, rest, out),
            _ => self.run(line, out),
        }
    }

    // `run`, `run|WORD|WORD` or `again|WORD|WORD`, or the call of a library.
    fn run(&mut self, line: &str, out: &mut String) -> Result<(), RowErr> {
        if let Some(words) = line.strip_prefix("again|") {
            return self.answer(line, Some(words), out);
        }
        let words = line.strip_prefix("run|");
        if words.is_none() && line != "run" {
            return make_call(self.alloc, &self.rows, line, out);
        }
        self.desk = Some(self.faults.desk(self.alloc, self.rows.files(), None)?);
        self.answer(line, words, out)
    }

    // A run over the files and the sink that are there.
    fn answer(&mut self, line: &str, words: Option<&str>, out: &mut String) -> Result<(), RowErr> {
        let Some(desk) = &mut self.desk else {
            return Err(RowErr::NoRun);
        };
        let status = desk.run(self.alloc, words)?;
        let taken = desk.taken();
        let shown = taken.get(..self.faults.first).unwrap_or(taken);
        push_answer(out, line, status, shown)?;
        Ok(())
    }

    // `FILE|WORD|WORD`: a run for each proper front of the file.
    fn run_fronts(&self, line: &str, rest: &str, out: &mut String) -> Result<(), RowErr> {
        let (file, words) = rest.split_once('|').ok_or(RowErr::Form)?;
        let whole = self.rows.file(file)?.len();
        let mut statuses = Vec::new(self.alloc);
        for length in 0..whole {
            let front = Front { file, length };
            let mut desk = self
                .faults
                .desk(self.alloc, self.rows.files(), Some(front))?;
            statuses.push(desk.run(self.alloc, Some(words))?)?;
        }
        push_statuses(out, line, &statuses)?;
        Ok(())
    }

    // Gives what the sink holds a name.
    fn keep(&mut self, name: &'a str) -> Result<(), RowErr> {
        let Some(desk) = &self.desk else {
            return Err(RowErr::NoRun);
        };
        let bytes = desk.taken().to_vec(self.alloc)?;
        self.rows.keep(name, bytes)
    }
}
