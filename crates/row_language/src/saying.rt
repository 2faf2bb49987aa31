//! Answers as lines.

use crate::row_err::RowErr;
use std::fmt::Debug;

/// Whether what a call answers was appended.
pub type Answer = Result<(), RowErr>;

/// Appends what a call answers.
pub fn say<T: Debug>(answer: &T, out: &mut String) -> Answer {
    write!(out, "| {answer:?}\n")?;
    Ok(())
}

/// Appends a line of words.
pub fn say_words(words: &str, out: &mut String) -> Answer {
    write!(out, "| {words}\n")?;
    Ok(())
}

/// Appends whether a call has made what is wanted.
pub fn say_same(is_same: bool, out: &mut String) -> Answer {
    say_words(
        if is_same {
            "as wanted"
        } else {
            "something else"
        },
        out,
    )
}
