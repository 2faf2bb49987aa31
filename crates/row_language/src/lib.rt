//! The language of the rows that tests are made of: lines that name texts and files and say what
//! they contain. Between them are the runs of `run_rows` and the calls of `library_rows`.
//!
//! ```text
//! match rows.take(line, &mut out)? {
//!     Taken::Read => {} // a line of the language
//!     Taken::Begun => {} // a new row
//!     Taken::Other { word, rest } => {} // a run or a call
//! }
//! ```
//!
//! A line refers only to what comes before it.
//!
//! - `# REMARK`, or nothing: nothing
//! - `text NAME`: a text of this name begins
//! - `== NAME`: a row begins, without files. The line is printed
//! - `file NAME`, `file NAME = TEXT`: a file of the row begins: it is empty, or has the bytes of
//!   this text. `file = TEXT` has the empty name. It takes the place of a file of this name
//! - `| PIECE`, `+ PIECE`: the text or the file goes on with the piece: with a line feed behind
//!   it, or without
//! - `add TEXT`: it goes on with the bytes of this text
//! - `repeat N PIECE`: it goes on with the piece, N times. For each `@` it has 0, then 1, and so
//!   on
//! - `wrap N PIECE`: it becomes the piece, with what it was for each `@`; and that N times
//! - `files as before`: the row has the files of the row before it, and none that this one had
//!
//! In a piece, and in what is printed, a backslash and two hexadecimal digits are one byte: `\20`
//! is a blank at the end of a line, `\0a` a line feed, `\5c` a backslash. Bytes are printed line by
//! line, with `|` before a line and `+` before what comes after the last line feed.
//!
//! Promised: nothing to other crates.
//! Only tested: all of it, by the rows of `run_rows`.
#![tactic(auto)]

mod output;
mod row_err;
mod rows;
mod saying;
mod text;

pub use output::push_output;
pub use row_err::RowErr;
pub use rows::{Rows, Taken};
pub use saying::{Answer, say, say_same, say_words};
pub use text::{Named, count, first_word, number_of};
