//! The words of the command line.

ghost use Rattle.std.specs.Prelude.{◌≡◌, IfOk};
ghost use Rattle.clap.specs.Walk.{texts};
ghost use Rattle.command_words.specs.Arguments.{IsAnswer};
ghost use Rattle.command_words.specs.Commands.{files_of};
ghost use Rattle.command_words.specs.Words.{IsRequestOf, check_of, expand_of, flows_of, migrate_of, other_request_of, payoff_of, requested_by, sample_of};

use crate::advance_words::{advance_of, novate_of};
use crate::arguments::{Argument, WordsErr, is_set, matches_of};
use crate::day_words::DayWord;
use crate::forms::{day_if_given, given, name_given, name_if_given};
use crate::netting_words::netting_of;
use crate::sample_size::SampleSize;
use crate::scenario_words::scenarios_of;
use crate::value_asked::Value;
use crate::value_words::value_of;
use decimal::{Mode, NoMemory};
use std::alloc::Global;

/// What the contracts of a portfolio's file pay: over the fixings of another file, up to a day, of
/// one contract alone, and summed, each where it is asked.
#[derive(Clone, Copy)]
pub struct Flows<'a> {
    pub portfolio: &'a str,
    pub fixings: Option<&'a str>,
    pub until: Option<DayWord<'a>>,
    pub contract: Option<&'a str>,
    pub net: bool,
}

/// The flows of a portfolio's file that are due before a day, over the fixings of another file, and
/// the portfolio that is left on that day.
#[derive(Clone, Copy)]
pub struct Advance<'a> {
    pub portfolio: &'a str,
    pub fixings: &'a str,
    pub to: DayWord<'a>,
}

/// The code of the contract of a name in a portfolio's file, with its payments cut, or plain where
/// that is asked.
#[derive(Clone, Copy)]
pub struct Payoff<'a> {
    pub portfolio: &'a str,
    pub contract: &'a str,
    pub plain: bool,
}

/// The net positions that all contracts of a portfolio's file leave, or the payments that settle
/// them: over the fixings of another file, up to a day, each where it is asked.
#[derive(Clone, Copy)]
pub struct Netting<'a> {
    pub portfolio: &'a str,
    pub fixings: Option<&'a str>,
    pub until: Option<DayWord<'a>>,
}

/// An advance after which a new party stands for an old one in the contract of a name.
#[derive(Clone, Copy)]
pub struct Novate<'a> {
    pub advance: Advance<'a>,
    pub contract: &'a str,
    pub old: &'a str,
    pub new: &'a str,
}

/// What a code file is worth in each scenario of a table, which stands in the place of the fixings,
/// with the mode that rounds the mean.
#[derive(Drop)]
pub struct Scenarios<'a> {
    pub value: Value<'a>,
    pub mean: Mode,
}

/// What words ask for: a command, with what it is given.
#[derive(Drop)]
pub enum Request<'a> {
    /// Says of each contract of the file whether it is accepted.
    Check { portfolio: &'a str },
    /// Lists what the contracts pay.
    Flows(Flows<'a>),
    /// Advances the portfolio to a day.
    Advance(Advance<'a>),
    /// Compiles a contract to code.
    Payoff(Payoff<'a>),
    /// Values a code file.
    Value(Value<'a>),
    /// Writes the portfolio in version 2.
    Migrate { portfolio: &'a str },
    /// Writes the contracts that the plans of a schedule file stand for.
    Expand { plans: &'a str },
    /// Summarizes what the sample of so many contracts pays.
    Sample(SampleSize),
    /// Lists the net positions of all parties.
    Positions(Netting<'a>),
    /// Lists payments that settle the net positions.
    Settle(Netting<'a>),
    /// Advances the portfolio to a day, and renames a party in one contract.
    Novate(Novate<'a>),
    /// Values a code file in each scenario of a set.
    Scenarios(Scenarios<'a>),
}

// `check PORTFOLIO`, by the words behind the first.
fn check_of<'a>(alloc: Global, words: &'a [&'a str]) -> Result<Request<'a>, WordsErr>
    ensures { IsAnswer requested_by (check_of (texts words.entry.now)) result }
{
    let arguments = [Argument::Required("portfolio")];
    let matches = matches_of(alloc, "check", &arguments, words)?;
    let portfolio = given(matches.get_str("portfolio"))?;
    Ok(Request::Check { portfolio })
}

// `migrate PORTFOLIO`, by the words behind the first.
fn migrate_of<'a>(alloc: Global, words: &'a [&'a str]) -> Result<Request<'a>, WordsErr>
    ensures { IsAnswer requested_by (migrate_of (texts words.entry.now)) result }
{
    let arguments = [Argument::Required("portfolio")];
    let matches = matches_of(alloc, "migrate", &arguments, words)?;
    let portfolio = given(matches.get_str("portfolio"))?;
    Ok(Request::Migrate { portfolio })
}

// `expand PLANS`, by the words behind the first.
fn expand_of<'a>(alloc: Global, words: &'a [&'a str]) -> Result<Request<'a>, WordsErr>
    ensures { IsAnswer requested_by (expand_of (texts words.entry.now)) result }
{
    let arguments = [Argument::Required("plans")];
    let matches = matches_of(alloc, "expand", &arguments, words)?;
    let plans = given(matches.get_str("plans"))?;
    Ok(Request::Expand { plans })
}

// `flows PORTFOLIO [FIXINGS] [--until DAY] [--contract NAME] [--net]`, by the words behind the
// first.
fn flows_of<'a>(alloc: Global, words: &'a [&'a str]) -> Result<Request<'a>, WordsErr>
    ensures { IsAnswer requested_by (flows_of (texts words.entry.now)) result }
{
    let arguments = [
        Argument::Required("portfolio"),
        Argument::Optional("fixings"),
        Argument::Valued("until"),
        Argument::Valued("contract"),
        Argument::Flag("net"),
    ];
    let matches = matches_of(alloc, "flows", &arguments, words)?;
    let portfolio = given(matches.get_str("portfolio"))?;
    let until = day_if_given(matches.get_str("until"))?;
    let contract = name_if_given(matches.get_str("contract"))?;
    Ok(Request::Flows(Flows {
        portfolio,
        fixings: matches.get_str("fixings"),
        until,
        contract,
        net: is_set(matches.get_str("net")),
    }))
}

// `payoff PORTFOLIO --contract NAME [--plain]`, by the words behind the first.
fn payoff_of<'a>(alloc: Global, words: &'a [&'a str]) -> Result<Request<'a>, WordsErr>
    ensures { IsAnswer requested_by (payoff_of (texts words.entry.now)) result }
{
    let arguments = [
        Argument::Required("portfolio"),
        Argument::Valued("contract"),
        Argument::Flag("plain"),
    ];
    let matches = matches_of(alloc, "payoff", &arguments, words)?;
    let portfolio = given(matches.get_str("portfolio"))?;
    let contract = name_given(matches.get_str("contract"))?;
    Ok(Request::Payoff(Payoff {
        portfolio,
        contract,
        plain: is_set(matches.get_str("plain")),
    }))
}

// `sample NUMBER`, by the words behind the first.
fn sample_of<'a>(alloc: Global, words: &'a [&'a str]) -> Result<Request<'a>, WordsErr>
    ensures { IsAnswer requested_by (sample_of (texts words.entry.now)) result }
{
    let arguments = [Argument::Required("number")];
    let matches = matches_of(alloc, "sample", &arguments, words)?;
    let number = given(matches.get_str("number"))?;
    match SampleSize::read(number) {
        Some(size) => Ok(Request::Sample(size)),
        None => Err(WordsErr::Usage),
    }
}

// What the words behind a name ask for, where it is that of a command over another file than a
// portfolio, or over none.
fn other_request_of<'a>(
    alloc: Global,
    name: &str,
    rest: &'a [&'a str],
) -> Result<Request<'a>, WordsErr>
    ensures { IsAnswer requested_by (other_request_of name.now (texts rest.entry.now)) result }
{
    if name == "value" {
        let value = value_of(alloc, rest)?;
        Ok(Request::Value(value))
    } else if name == "scenarios" {
        let scenarios = scenarios_of(alloc, rest)?;
        Ok(Request::Scenarios(scenarios))
    } else if name == "expand" {
        expand_of(alloc, rest)
    } else if name == "sample" {
        sample_of(alloc, rest)
    } else {
        Err(WordsErr::Usage)
    }
}

/// What the words ask for, which are those of the command line without the program's name. `Usage`
/// comes exactly where they have the form of none.
pub fn request_of<'a>(alloc: Global, words: &'a [&'a str]) -> Result<Request<'a>, WordsErr>
    ensures { IsRequestOf (texts words.entry.now) result }
{
    let [name, rest @ ..] = words else {
        return Err(WordsErr::Usage);
    };
    if *name == "check" {
        check_of(alloc, rest)
    } else if *name == "flows" {
        flows_of(alloc, rest)
    } else if *name == "payoff" {
        payoff_of(alloc, rest)
    } else if *name == "migrate" {
        migrate_of(alloc, rest)
    } else if *name == "positions" {
        let netting = netting_of(alloc, "positions", rest)?;
        Ok(Request::Positions(netting))
    } else if *name == "settle" {
        let netting = netting_of(alloc, "settle", rest)?;
        Ok(Request::Settle(netting))
    } else if *name == "advance" {
        let advance = advance_of(alloc, rest)?;
        Ok(Request::Advance(advance))
    } else if *name == "novate" {
        let novate = novate_of(alloc, rest)?;
        Ok(Request::Novate(novate))
    } else {
        other_request_of(alloc, name, rest)
    }
}

/// The names of the files of a request, in the order in which they are read, or out of memory.
pub fn files_of<'a>(alloc: Global, request: &Request<'a>) -> Result<Vec<&'a str>, NoMemory>
    ensures { IfOk result (λ names. texts names.items ≡ files_of (requested_by request.now)) }
{
    let mut names = Vec::new(alloc);
    match request {
        Request::Check { portfolio } | Request::Migrate { portfolio } => names.push(*portfolio)?,
        Request::Flows(flows) => {
            names.push(flows.portfolio)?;
            if let Some(fixings) = flows.fixings {
                names.push(fixings)?;
            }
        }
        Request::Advance(advance) => {
            names.push(advance.portfolio)?;
            names.push(advance.fixings)?;
        }
        Request::Payoff(payoff) => names.push(payoff.portfolio)?,
        Request::Expand { plans } => names.push(*plans)?,
        Request::Value(value) => {
            names.push(value.files.code)?;
            names.push(value.files.fixings)?;
            names.push(value.files.curve)?;
        }
        Request::Sample(_) => {}
        Request::Positions(netting) | Request::Settle(netting) => {
            names.push(netting.portfolio)?;
            if let Some(fixings) = netting.fixings {
                names.push(fixings)?;
            }
        }
        Request::Novate(novate) => {
            names.push(novate.advance.portfolio)?;
            names.push(novate.advance.fixings)?;
        }
        Request::Scenarios(scenarios) => {
            names.push(scenarios.value.files.code)?;
            names.push(scenarios.value.files.fixings)?;
            names.push(scenarios.value.files.curve)?;
        }
    }
    Ok(names)
}
