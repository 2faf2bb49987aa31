//! The words of `scenarios`.

ghost use Rattle.clap.specs.Walk.{texts};
ghost use Rattle.command_words.specs.Arguments.{IsAnswer, given_text};
ghost use Rattle.command_words.specs.Words.{mode_if_given, scenarios_by, scenarios_of};

use crate::arguments::{Argument, WordsErr, matches_of};
use crate::value_words::value_given;
use crate::words::Scenarios;
use decimal::Mode;
use std::alloc::Global;

// A mode that has to be given, by its word.
fn mode_given(word: Option<&str>) -> Result<Mode, WordsErr>
    ensures { IsAnswer (λ mode. mode) (mode_if_given (given_text word.entry)) result }
{
    let Some(text) = word else {
        return Err(WordsErr::Usage);
    };
    if text == "half_even" {
        Ok(Mode::HalfEven)
    } else if text == "half_away" {
        Ok(Mode::HalfAway)
    } else if text == "floor" {
        Ok(Mode::Floor)
    } else if text == "ceil" {
        Ok(Mode::Ceil)
    } else {
        Err(WordsErr::Usage)
    }
}

/// `scenarios CODE SCENARIOS CURVE [T=N].. --at DAY --from P --to Q --asset A --mean MODE`, by the
/// words behind the first.
pub fn scenarios_of<'a>(alloc: Global, words: &'a [&'a str]) -> Result<Scenarios<'a>, WordsErr>
    ensures { IsAnswer scenarios_by (scenarios_of (texts words.entry.now)) result }
{
    let arguments = [
        Argument::Required("code"),
        Argument::Required("fixings"),
        Argument::Required("curve"),
        Argument::Repeated("settings"),
        Argument::Valued("at"),
        Argument::Valued("from"),
        Argument::Valued("to"),
        Argument::Valued("asset"),
        Argument::Valued("mean"),
    ];
    let matches = matches_of(alloc, "scenarios", &arguments, words)?;
    let value = value_given(alloc, &matches)?;
    let mean = mode_given(matches.get_str("mean"))?;
    Ok(Scenarios { value, mean })
}
