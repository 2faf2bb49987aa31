//! The words of `advance` and of `novate`.

ghost use Rattle.clap.specs.Words.{first_value, found_of};
ghost use Rattle.clap.specs.Walk.{texts};
ghost use Rattle.command_words.specs.Arguments.{IsAnswer};
ghost use Rattle.command_words.specs.Words.{advance_by, advance_from, advance_of, novate_by, novate_from, novate_of};

use crate::arguments::{Argument, WordsErr, matches_of};
use crate::forms::{day_given, given, name_given};
use crate::words::{Advance, Novate};
use clap::ArgMatches;
use std::alloc::Global;

// The files and the day that were given.
fn advance_given<'a>(matches: &ArgMatches<'a>) -> Result<Advance<'a>, WordsErr>
    ensures { IsAnswer advance_by (advance_from (first_value (found_of matches.now))) result }
{
    let portfolio = given(matches.get_str("portfolio"))?;
    let fixings = given(matches.get_str("fixings"))?;
    let to = day_given(matches.get_str("to"))?;
    Ok(Advance {
        portfolio,
        fixings,
        to,
    })
}

// The same, with the contract and the parties that were given.
fn novate_given<'a>(matches: &ArgMatches<'a>) -> Result<Novate<'a>, WordsErr>
    ensures { IsAnswer novate_by (novate_from (first_value (found_of matches.now))) result }
{
    let advance = advance_given(matches)?;
    let contract = name_given(matches.get_str("contract"))?;
    let old = name_given(matches.get_str("old"))?;
    let new = name_given(matches.get_str("new"))?;
    Ok(Novate {
        advance,
        contract,
        old,
        new,
    })
}

/// `advance PORTFOLIO FIXINGS --to DAY`, by the words behind the first.
pub fn advance_of<'a>(alloc: Global, words: &'a [&'a str]) -> Result<Advance<'a>, WordsErr>
    ensures { IsAnswer advance_by (advance_of (texts words.entry.now)) result }
{
    let arguments = [
        Argument::Required("portfolio"),
        Argument::Required("fixings"),
        Argument::Valued("to"),
    ];
    let matches = matches_of(alloc, "advance", &arguments, words)?;
    advance_given(&matches)
}

/// `novate PORTFOLIO FIXINGS --to DAY --contract NAME --old P --new Q`, by the words behind the
/// first.
pub fn novate_of<'a>(alloc: Global, words: &'a [&'a str]) -> Result<Novate<'a>, WordsErr>
    ensures { IsAnswer novate_by (novate_of (texts words.entry.now)) result }
{
    let arguments = [
        Argument::Required("portfolio"),
        Argument::Required("fixings"),
        Argument::Valued("to"),
        Argument::Valued("contract"),
        Argument::Valued("old"),
        Argument::Valued("new"),
    ];
    let matches = matches_of(alloc, "novate", &arguments, words)?;
    novate_given(&matches)
}
