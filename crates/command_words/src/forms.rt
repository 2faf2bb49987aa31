//! Words of a form: that have to be given, or may be.

ghost use Rattle.std.specs.Prelude.{option_map};
ghost use Rattle.contract_grammar.specs.NameTexts.{is_name_text};
ghost use Rattle.command_words.specs.Arguments.{IsAnswer, given_text};
ghost use Rattle.command_words.specs.Words.{if_given, is_day, with_form};

use crate::arguments::WordsErr;
use crate::day_words::DayWord;
use contract_grammar::is_name_text;

/// A word that has to be given.
pub fn given(word: Option<&str>) -> Result<&str, WordsErr>
    ensures { IsAnswer (λ word. word.now) (given_text word.entry) result }
{
    word.ok_or(WordsErr::Usage)
}

/// A day, if a word gives one.
pub fn day_if_given(word: Option<&str>) -> Result<Option<DayWord<'_>>, WordsErr>
    ensures { IsAnswer (option_map
        (λ day. day.word.now)) (if_given is_day (given_text word.entry)) result }
{
    let Some(text) = word else {
        return Ok(None);
    };
    match DayWord::read(text) {
        Some(day) => Ok(Some(day)),
        None => Err(WordsErr::Usage),
    }
}

/// A day that has to be given.
pub fn day_given(word: Option<&str>) -> Result<DayWord<'_>, WordsErr>
    ensures { IsAnswer (λ day. day.word.now) (with_form is_day (given_text word.entry)) result }
{
    let Some(text) = word else {
        return Err(WordsErr::Usage);
    };
    match DayWord::read(text) {
        Some(day) => Ok(day),
        None => Err(WordsErr::Usage),
    }
}

/// A name, if a word gives one.
pub fn name_if_given(word: Option<&str>) -> Result<Option<&str>, WordsErr>
    ensures { IsAnswer given_text (if_given is_name_text (given_text word.entry)) result }
{
    match word {
        Some(text) if !is_name_text(text.as_bytes()) => Err(WordsErr::Usage),
        _ => Ok(word),
    }
}

/// A name that has to be given.
pub fn name_given(word: Option<&str>) -> Result<&str, WordsErr>
    ensures { IsAnswer (λ word. word.now) (with_form is_name_text (given_text word.entry)) result }
{
    match word {
        Some(text) if is_name_text(text.as_bytes()) => Ok(text),
        _ => Err(WordsErr::Usage),
    }
}
