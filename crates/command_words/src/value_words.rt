//! The words of `value`.

ghost use Rattle.std.specs.Prelude.{◌≡◌, ◌≤◌, ◌++◌, ◌∷◌, IfOk, IfSome, OnOk, Some, [], false, option_map};
ghost use Rattle.std.specs.Map.{keys_of};
ghost use Rattle.term_model.specs.Limits.{most_days};
ghost use Rattle.clap.specs.Words.{first_value, found_of};
ghost use Rattle.clap.specs.Walk.{texts};
ghost use Rattle.contract_grammar.specs.Names.{is_declared};
ghost use Rattle.contract_grammar.specs.NameTexts.{is_name_text};
ghost use Rattle.command_words.specs.Arguments.{IsAnswer, all_values, given_texts};
ghost use Rattle.command_words.specs.Commands.{AreSettings};
ghost use Rattle.command_words.specs.Words.{between_by, files_by, one_more_setting, setting_of_word, settings_after, settings_of, value_between, value_by, value_files, value_from, value_of};

use crate::arguments::{Argument, WordsErr, matches_of};
use crate::day_words::DayWord;
use crate::forms::{day_given, given, name_given};
use crate::value_asked::{Between, Value, ValueFiles};
use clap::ArgMatches;
use contract_grammar::is_name_text;
use decimal::{NoMemory, number_up_to};
use indexmap::IndexMap;
use std::alloc::Global;
use term_model::{MOST_DAYS, Name};

// The template that a word names, and the number that it sets for it, which is at most 100,000.
fn setting_of_word(word: &str) -> Option<(&[u8], u32)>
    ensures value { option_map (λ setting. (setting.0.now, setting.1)) result
        ≡ setting_of_word word.now }
    ensures few { IfSome result (λ setting. setting.1 ≤ most_days) }
{
    let (name, number) = word.split_once('=')?;
    if !is_name_text(name.as_bytes()) {
        return None;
    }
    let number = number_up_to(MOST_DAYS, number.as_bytes())?;
    Some((name.as_bytes(), number))
}

// Adds the number of a name that has none.
fn put(settings: &mut IndexMap<Name, u32>, name: Name, number: u32) -> Result<(), NoMemory>
    requires { is_declared (keys_of settings.old.entries) name ≡ false }
    ensures { OnOk result (settings.new.entries ≡ settings.old.entries ++ (name, number) ∷ []) }
{
    settings.insert(name, number)?;
    Ok(())
}

// Adds what a word sets, where nothing before it sets that.
fn add_setting(
    alloc: Global,
    settings: &mut IndexMap<Name, u32>,
    word: &str,
) -> Result<(), WordsErr>
    requires { AreSettings settings.old.entries }
    ensures answer { IsAnswer (λ _. settings.new.entries)
        (one_more_setting settings.old.entries (setting_of_word word.now)) result }
    ensures few { IfOk result (λ _. AreSettings settings.new.entries) }
{
    let Some((name, number)) = setting_of_word(word) else {
        return Err(WordsErr::Usage);
    };
    if settings.contains_key(name) {
        return Err(WordsErr::Usage);
    }
    let name = Name::new(alloc, name)?;
    put(settings, name, number)?;
    Ok(())
}

// What words set, one after another.
fn settings_of(alloc: Global, words: &[&str]) -> Result<IndexMap<Name, u32>, WordsErr>
    ensures answer { IsAnswer (λ settings. settings.entries)
        (settings_after (Some []) (texts words.now)) result }
    ensures few { IfOk result (λ settings. AreSettings settings.entries) }
{
    let mut settings = IndexMap::new(alloc);
    for word in words {
        add_setting(alloc, &mut settings, word)?;
    }
    Ok(settings)
}

// The same, of words that may be given.
fn settings_given(alloc: Global, words: Option<&[&str]>) -> Result<IndexMap<Name, u32>, WordsErr>
    ensures answer { IsAnswer (λ settings. settings.entries)
        (settings_of (given_texts words.entry)) result }
    ensures few { IfOk result (λ settings. AreSettings settings.entries) }
{
    match words {
        Some(words) => settings_of(alloc, words),
        None => Ok(IndexMap::new(alloc)),
    }
}

// The files that were given.
fn files_of<'a>(matches: &ArgMatches<'a>) -> Result<ValueFiles<'a>, WordsErr>
    ensures { IsAnswer files_by (value_files (first_value (found_of matches.now))) result }
{
    let code = given(matches.get_str("code"))?;
    let fixings = given(matches.get_str("fixings"))?;
    let curve = given(matches.get_str("curve"))?;
    Ok(ValueFiles {
        code,
        fixings,
        curve,
    })
}

// The parties and the asset that were given.
fn between_of<'a>(matches: &ArgMatches<'a>) -> Result<Between<'a>, WordsErr>
    ensures { IsAnswer between_by (value_between (first_value (found_of matches.now))) result }
{
    let from = name_given(matches.get_str("from"))?;
    let to = name_given(matches.get_str("to"))?;
    let asset = name_given(matches.get_str("asset"))?;
    Ok(Between { from, to, asset })
}

/// What is to be valued, by the files, the day, the parties, the asset and the settings that were
/// given.
pub fn value_given<'a>(alloc: Global, matches: &ArgMatches<'a>) -> Result<Value<'a>, WordsErr>
    ensures { IsAnswer value_by (value_from (first_value (found_of matches.now))
        (all_values (found_of matches.now))) result }
{
    let files = files_of(matches)?;
    let at = day_given(matches.get_str("at"))?;
    let between = between_of(matches)?;
    let settings = settings_given(alloc, matches.get_strs("settings"))?;
    Ok(Value {
        files,
        at,
        between,
        settings,
    })
}

/// `value CODE FIXINGS CURVE [T=N].. --at DAY --from P --to Q --asset A`, by the words behind the
/// first.
pub fn value_of<'a>(alloc: Global, words: &'a [&'a str]) -> Result<Value<'a>, WordsErr>
    ensures { IsAnswer value_by (value_of (texts words.entry.now)) result }
{
    let arguments = [
        Argument::Required("code"),
        Argument::Required("fixings"),
        Argument::Required("curve"),
        Argument::Repeated("settings"),
        Argument::Valued("at"),
        Argument::Valued("from"),
        Argument::Valued("to"),
        Argument::Valued("asset"),
    ];
    let matches = matches_of(alloc, "value", &arguments, words)?;
    value_given(alloc, &matches)
}
