//! The words of `positions` and of `settle`.

ghost use Rattle.clap.specs.Words.{first_value, found_of};
ghost use Rattle.clap.specs.Walk.{texts};
ghost use Rattle.command_words.specs.Arguments.{IsAnswer};
ghost use Rattle.command_words.specs.Words.{netting_by, netting_from, netting_of};

use crate::arguments::{Argument, WordsErr, matches_of};
use crate::forms::{day_if_given, given};
use crate::words::Netting;
use clap::ArgMatches;
use std::alloc::Global;

// The files and the day that were given.
fn netting_given<'a>(matches: &ArgMatches<'a>) -> Result<Netting<'a>, WordsErr>
    ensures { IsAnswer netting_by (netting_from (first_value (found_of matches.now))) result }
{
    let portfolio = given(matches.get_str("portfolio"))?;
    let until = day_if_given(matches.get_str("until"))?;
    Ok(Netting {
        portfolio,
        fixings: matches.get_str("fixings"),
        until,
    })
}

/// `positions PORTFOLIO [FIXINGS] [--until DAY]`, or `settle` of the same form, by the command's
/// name and the words behind it.
pub fn netting_of<'a>(
    alloc: Global,
    name: &'a str,
    words: &'a [&'a str],
) -> Result<Netting<'a>, WordsErr>
    ensures { IsAnswer netting_by (netting_of name.entry.now (texts words.entry.now)) result }
{
    let arguments = [
        Argument::Required("portfolio"),
        Argument::Optional("fixings"),
        Argument::Valued("until"),
    ];
    let matches = matches_of(alloc, name, &arguments, words)?;
    netting_given(&matches)
}
