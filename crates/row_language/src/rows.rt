//! The rows, line by line.

use crate::row_err::RowErr;
use crate::text::{Named, counted, find, piece_of, push_repeated, wrapped};
use std::alloc::Global;
use std::mem;

// What the pieces of a text are put into.
#[derive(Clone, Copy)]
enum Open<'a> {
    Nothing,
    Text(&'a str),
    File(&'a str),
}

/// What became of a line.
#[derive(Clone, Copy)]
pub enum Taken<'a> {
    /// It was read.
    Read,
    /// It begins a row.
    Begun,
    /// It is none of this language. It has its first word, and what stands behind the blank.
    Other { word: &'a str, rest: &'a str },
}

/// The texts so far, and the files of the row that is read.
#[derive(Drop)]
pub struct Rows<'a> {
    alloc: Global,
    texts: Vec<Named<'a>>,
    open: Open<'a>,
    bytes: Vec<u8>,
    files: Vec<Named<'a>>,
    before: Vec<Named<'a>>,
}

impl<'a> Rows<'a> {
    /// No texts, and a row without a name and without files.
    pub fn new(alloc: Global) -> Rows<'a> {
        Rows {
            alloc,
            texts: Vec::new(alloc),
            open: Open::Nothing,
            bytes: Vec::new(alloc),
            files: Vec::new(alloc),
            before: Vec::new(alloc),
        }
    }

    /// The files of the row, the later before the earlier.
    pub fn files(&self) -> &[Named<'a>] {
        &self.files
    }

    /// What the file of this name contains.
    pub fn file(&self, name: &str) -> Result<&[u8], RowErr> {
        find(&self.files, name).ok_or(RowErr::NoFile)
    }

    /// Does what the next line says, and appends what is to be printed.
    pub fn take(&mut self, line: &'a str, out: &mut String) -> Result<Taken<'a>, RowErr> {
        if line.is_empty() || line.starts_with('#') {
            return Ok(Taken::Read);
        }
        let (word, rest) = line.split_once(' ').unwrap_or((line, ""));
        match word {
            "|" => self.append(rest, "\n")?,
            "+" => self.append(rest, "")?,
            "add" => self.add(rest)?,
            "repeat" => self.repeat(rest)?,
            "wrap" => self.wrap(rest)?,
            _ => return self.begin(line, word, rest, out),
        }
        Ok(Taken::Read)
    }

    /// Gives bytes a name, as a text that goes on.
    pub fn keep(&mut self, name: &'a str, bytes: Vec<u8>) -> Result<(), RowErr> {
        self.begin_text(name)?;
        self.bytes = bytes;
        Ok(())
    }

    // A line that is no part of a text.
    fn begin(
        &mut self,
        line: &'a str,
        word: &'a str,
        rest: &'a str,
        out: &mut String,
    ) -> Result<Taken<'a>, RowErr> {
        self.close()?;
        match word {
            "==" => {
                self.begin_row();
                write!(out, "{line}\n")?;
                return Ok(Taken::Begun);
            }
            "text" => self.begin_text(rest)?,
            "file" => self.begin_file(rest)?,
            "files" if rest == "as before" => {
                self.files = mem::replace(&mut self.before, Vec::new(self.alloc));
            }
            _ => return Ok(Taken::Other { word, rest }),
        }
        Ok(Taken::Read)
    }

    // Ends the text or the file that has begun.
    fn close(&mut self) -> Result<(), RowErr> {
        let bytes = mem::replace(&mut self.bytes, Vec::new(self.alloc));
        let open = self.open;
        self.open = Open::Nothing;
        match open {
            Open::Nothing => {}
            Open::Text(name) => self.texts.push(Named { name, bytes })?,
            Open::File(name) => self.files.insert(0, Named { name, bytes })?,
        }
        Ok(())
    }

    fn begin_row(&mut self) {
        self.before = mem::replace(&mut self.files, Vec::new(self.alloc));
    }

    fn begin_text(&mut self, name: &'a str) -> Result<(), RowErr> {
        if find(&self.texts, name).is_some() {
            return Err(RowErr::Twice);
        }
        self.open = Open::Text(name);
        Ok(())
    }

    // `NAME`, or `NAME = TEXT`, where the name may be empty.
    fn begin_file(&mut self, rest: &'a str) -> Result<(), RowErr> {
        if let Some(text) = rest.strip_prefix("= ") {
            self.open = Open::File("");
            return self.add(text);
        }
        if let Some((name, text)) = rest.split_once(" = ") {
            self.open = Open::File(name);
            return self.add(text);
        }
        self.open = Open::File(rest);
        Ok(())
    }

    fn check_open(&self) -> Result<(), RowErr> {
        match self.open {
            Open::Nothing => Err(RowErr::Closed),
            Open::Text(_) | Open::File(_) => Ok(()),
        }
    }

    fn append(&mut self, piece: &str, end: &str) -> Result<(), RowErr> {
        self.check_open()?;
        let piece = piece_of(self.alloc, piece)?;
        self.bytes.extend_from_slice(&piece)?;
        self.bytes.extend_from_slice(end.as_bytes())?;
        Ok(())
    }

    fn add(&mut self, name: &str) -> Result<(), RowErr> {
        self.check_open()?;
        let text = find(&self.texts, name).ok_or(RowErr::NoText)?;
        self.bytes.extend_from_slice(text)?;
        Ok(())
    }

    fn repeat(&mut self, rest: &str) -> Result<(), RowErr> {
        self.check_open()?;
        let (times, piece) = counted(self.alloc, rest)?;
        push_repeated(self.alloc, &mut self.bytes, times, &piece)?;
        Ok(())
    }

    fn wrap(&mut self, rest: &str) -> Result<(), RowErr> {
        self.check_open()?;
        let (times, piece) = counted(self.alloc, rest)?;
        let inner = mem::replace(&mut self.bytes, Vec::new(self.alloc));
        self.bytes = wrapped(self.alloc, inner, times, &piece)?;
        Ok(())
    }
}
