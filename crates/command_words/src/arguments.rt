//! Commands as the crate `clap` reads them: each is declared by its name and its arguments, and
//! what words mean is the function of them that the crate states.

ghost use Rattle.std.specs.Prelude.{◌≡◌, IfOk, false, map, true};
ghost use Rattle.clap.specs.Words.{app_of, is_simple_and_free, rule_of};
ghost use Rattle.clap.specs.Walk.{texts};
ghost use Rattle.command_words.specs.Arguments.{HasMatches, bare_app, declared, given_text, is_set, rule_by};
ghost use Rattle.command_words.specs.declared.arguments.WordsErr.TheVariants.{NoMemory as lacks_memory};

use clap::error::ErrorKind;
use clap::{Arg, ArgAction, ArgMatches, Command};
use std::alloc::{AllocError, Global};

/// Why words give no command.
#[derive(Clone, Copy, Debug, PartialEq, Eq)]
pub enum WordsErr {
    /// They have the form of none.
    Usage,
    NoMemory,
}

impl From<AllocError> for WordsErr {
    ghost from_gives = { λ _ e. e ≡ lacks_memory };

    fn from(_: AllocError) -> WordsErr {
        WordsErr::NoMemory
    }
}

impl From<decimal::NoMemory> for WordsErr {
    ghost from_gives = { λ _ e. e ≡ lacks_memory };

    fn from(_: decimal::NoMemory) -> WordsErr {
        WordsErr::NoMemory
    }
}

/// An argument of a command, by its name.
#[derive(Clone, Copy, Debug, PartialEq, Eq)]
pub enum Argument<'a> {
    /// A word that has to be given.
    Required(&'a str),
    /// A word that may be given.
    Optional(&'a str),
    /// Any number of words, behind all others that are no options.
    Repeated(&'a str),
    /// `--NAME VALUE`, or `--NAME=VALUE`.
    Valued(&'a str),
    /// `--NAME`.
    Flag(&'a str),
}

fn arg_of<'a>(alloc: Global, argument: Argument<'a>) -> Arg<'a>
    ensures rule { rule_of result ≡ rule_by argument.entry }
    ensures local { result.global ≡ false }
{
    match argument {
        Argument::Required(name) => Arg::new(alloc, name).required(true).action(ArgAction::Set),
        Argument::Optional(name) => Arg::new(alloc, name).action(ArgAction::Set),
        Argument::Repeated(name) => Arg::new(alloc, name).action(ArgAction::Append),
        Argument::Valued(name) => Arg::new(alloc, name).long(name).action(ArgAction::Set),
        Argument::Flag(name) => Arg::new(alloc, name).long(name).action(ArgAction::SetTrue),
    }
}

// A command without arguments. It is given the words behind its own.
fn bare<'a>(alloc: Global, name: &'a str) -> Command<'a>
    ensures { app_of result ≡ bare_app name.entry.now }
{
    Command::new(alloc, name)
        .no_binary_name(true)
        .disable_help_flag(true)
        .disable_version_flag(true)
}

fn declare<'a>(
    alloc: Global,
    name: &'a str,
    arguments: &[Argument<'a>],
) -> Result<Command<'a>, AllocError>
    ensures { IfOk result (λ command. app_of command
        ≡ declared name.entry.now (map rule_by arguments.now)) }
{
    let mut command = bare(alloc, name);
    for argument in arguments {
        command = command.arg(arg_of(alloc, *argument))?;
    }
    Ok(command)
}

/// What the words behind a command's own mean to it, where it is declared by this name and these
/// arguments.
pub fn matches_of<'a>(
    alloc: Global,
    name: &'a str,
    arguments: &[Argument<'a>],
    words: &'a [&'a str],
) -> Result<ArgMatches<'a>, WordsErr>
    requires { is_simple_and_free (declared name.now (map rule_by arguments.now)) ≡ true }
    ensures { HasMatches (declared name.entry.now (map rule_by arguments.now))
        (texts words.entry.now) result }
{
    let command = declare(alloc, name, arguments)?;
    match command.try_get_matches_from(words) {
        Ok(matches) => Ok(matches),
        Err(error) => match error.kind() {
            ErrorKind::OutOfMemory => Err(WordsErr::NoMemory),
            _ => Err(WordsErr::Usage),
        },
    }
}

/// What is found for a flag says that it is given.
pub fn is_set(value: Option<&str>) -> bool
    ensures { result ≡ is_set (given_text value.entry) }
{
    match value {
        Some(text) => text == "true",
        None => false,
    }
}
