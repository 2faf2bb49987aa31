//! A run of one command in the caller's process: words and files are lent, and the text is copied
//! into room that is lent too.
//!
//! ```text
//! let ended = run_lent(alloc, &words, &files, &mut room);
//! let text = &room[..ended.count];
//! ```
//!
//! Promised: `run_lent` has run the command of the words over these files, in the sense of the
//! headline of `contract_cli::run`; or it is out of memory; or a word is not UTF-8 (`Ends`). The
//! whole text stands in the room if it fits there, and its length is told in any case.
//! Only tested: that it succeeds where there is memory (`tests/embedding`).
#![tactic(auto)]

mod lent;
mod run;
mod text_sink;
mod words;

pub use lent::{LentFiles, NamedBytes};
pub use run::{Ended, run_lent};
pub use text_sink::TextSink;
pub use words::Piece;
