//! Words that name days.

ghost use Rattle.std.specs.Prelude.{◌≡◌, Some};
ghost use Rattle.fixing_files.specs.Days.{day_named};

use fixing_files::{NamedDay, read_day};

/// A word with what it names: a number of days, or a date, whose day is a matter of the portfolio's
/// origin. The word is read once, for its form and its day.
#[derive(Clone, Copy)]
pub struct DayWord<'a> {
    pub word: &'a str,
    pub named: NamedDay,
    pub ghost reads: { day_named word.now ≡ Some named },
}

impl<'a> DayWord<'a> {
    ghost use Rattle.std.specs.Prelude.{◌≡◌, IfSome, option_map};
    ghost use Rattle.command_words.specs.Words.{day_of_word};

    /// The day of a word. There is none exactly where the word begins with `-` or names no day.
    pub fn read(word: &'a str) -> Option<DayWord<'a>>
        ensures named { option_map (λ day. day.named) result ≡ day_of_word word.now }
        ensures word { IfSome result (λ day. day.word.now ≡ word.now) }
    {
        if word.starts_with('-') {
            return None;
        }
        match read_day(word.as_bytes()) {
            Some(named) => Some(DayWord { word, named }),
            None => None,
        }
    }
}
