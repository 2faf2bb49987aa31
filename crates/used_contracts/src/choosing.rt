//! The contracts of a text that a command uses, all or the one of a name: each is tried as it is
//! read, and dropped.

ghost use Rattle.std.specs.Prelude.{◌≡◌, None, IfOk, OnOk, is_none};
ghost use Rattle.term_model.specs.Declarations.{declarations};
ghost use Rattle.term_model.specs.Instances.{declared_numbers};
ghost use Rattle.term_model.specs.Terms.{contract};
ghost use Rattle.contract_parse.specs.NextContracts.{IsSoundContract};
ghost use Rattle.command_words.specs.Arguments.{given_text};
ghost use Rattle.used_contracts.specs.ChoosingParts.{Chooses, IsBehindAcceptance, IsBehindNames};
ghost use Rattle.used_contracts.specs.ChoosingParts.{KnowsName, Nothing, Steps, TellsFirst};
ghost use Rattle.used_contracts.specs.ChoosingParts.{TellsName, TriesAll, TriesNext, every};
ghost use Rattle.used_contracts.specs.ChoosingParts.{selection, stop_at};
ghost use Rattle.used_contracts.specs.ReadingParts.{HasBegun};
ghost use Rattle.used_contracts.specs.UsedContracts.{at_defaults, is_asked};

use crate::accepting::{refusal, verdict};
use crate::choice::Choice;
use crate::reading::{made_of, read_next};
use command_courses::Stop;
use contract_parse::{ContractReader, NextContract};
use decimal::NoMemory;
use report::Fault;
use std::alloc::Global;
use term_model::{Decls, Name, Setting};

/// All contracts of a text, and a name, if any, that is to be that of one.
pub fn all_contracts<'a>(
    decls: &'a Decls,
    setting: &'a Setting,
    named: Option<&'a str>,
) -> Choice<'a>
    requires { setting.now.days.items ≡ declared_numbers (declarations decls.now) }
    ensures decls { result.decls ≡ decls.entry }
    ensures all { selection result ≡ every (given_text named.entry) }
{
    Choice {
        decls,
        setting,
        named,
        only: false,
    }
}

/// What has come of the contracts so far.
#[derive(Drop)]
pub struct Tried {
    /// Whether the name that is asked for, if one is, is that of a contract.
    pub met: bool,
    /// The fault of the first contract that is used and is not accepted.
    pub refused: Option<Fault>,
}

fn is_asked(name: &[u8], named: Option<&str>) -> bool
    ensures { result ≡ is_asked (given_text named.entry) name.now }
{
    match named {
        Some(word) => word.as_bytes() == name,
        None => true,
    }
}

// The contract at the defaults, if it is accepted and none before it was refused. The first that is
// not is held.
fn try_next<'a>(
    alloc: Global,
    choice: &Choice<'_>,
    next: NextContract<'a>,
    refused: &mut Option<Fault>,
) -> Result<Option<NextContract<'a>>, NoMemory>
    requires { IsSoundContract (declarations choice.now.decls.now) (contract next.contr) }
    ensures { IfOk result (TriesNext (declarations choice.now.decls.now)
        (at_defaults (declarations choice.now.decls.now)
        (next.entry.name.now, contract next.entry.contr))
        refused.old refused.new) }
{
    if refused.is_some() {
        return Ok(None);
    }
    let name = next.name;
    let contr = made_of(alloc, next.contr, choice.setting)?;
    match verdict(alloc, choice.decls, &contr)? {
        Ok(_) => Ok(Some(NextContract { name, contr })),
        Err(fault) => {
            *refused = Some(refusal(alloc, name, fault)?);
            Ok(None)
        }
    }
}

/// The contract at the defaults, if it is used, it is accepted, and so are those before it.
pub fn choose<'a>(
    alloc: Global,
    choice: &Choice<'_>,
    next: NextContract<'a>,
    tried: &mut Tried,
) -> Result<Option<NextContract<'a>>, NoMemory>
    requires { IsSoundContract (declarations choice.now.decls.now) (contract next.contr) }
    ensures { IfOk result (Chooses (declarations choice.now.decls.now) (selection choice.now)
        (next.entry.name.now, contract next.entry.contr) tried.old tried.new) }
{
    let asked = is_asked(next.name, choice.named);
    tried.met = tried.met | asked;
    let used = asked | !choice.only;
    if used {
        try_next(alloc, choice, next, &mut tried.refused)
    } else {
        Ok(None)
    }
}

/// What comes of no contracts: a name that is asked for is yet to be met.
pub fn nothing_tried(named: Option<&str>) -> Tried
    ensures met { result.met ≡ is_none (given_text named.entry) }
    ensures refused { result.refused ≡ None }
{
    Tried {
        met: named.is_none(),
        refused: None,
    }
}

// Tries the next contract that is read, and keeps nothing of it.
fn try_on(
    alloc: Global,
    choice: &Choice<'_>,
    next: NextContract<'_>,
    tried: &mut Tried,
) -> Result<(), NoMemory>
    requires { IsSoundContract (declarations choice.now.decls.now) (contract next.contr) }
    ensures { OnOk result
        (Steps (declarations choice.now.decls.now) (selection choice.now) Nothing Nothing
        (next.entry.name.now, contract next.entry.contr) tried.old tried.new) }
{
    choose(alloc, choice, next, tried)?;
    Ok(())
}

// What comes of all contracts that are left of a text.
fn try_all(
    alloc: Global,
    choice: &Choice<'_>,
    reader: &mut ContractReader<'_>,
) -> Result<Tried, Stop>
    requires { HasBegun (declarations choice.now.decls.now) reader.old }
    ensures { TriesAll (declarations choice.now.decls.now) (selection choice.now) reader.old
        result }
{
    let mut tried = nothing_tried(choice.named);
    while let Some(next) = read_next(alloc, choice.decls, reader)? {
        try_on(alloc, choice, next, &mut tried)?;
    }
    Ok(tried)
}

// Stops at a name that is asked for and was not met.
fn know(alloc: Global, named: Option<&str>, met: bool) -> Result<(), Stop>
    ensures { TellsName (given_text named.entry) met result }
{
    let Some(word) = named else {
        return Ok(());
    };
    if met {
        return Ok(());
    }
    let name = Name::new(alloc, word.as_bytes())?;
    Err(Stop::Fault(Fault::UnknownName { name }))
}

// Stops at a fault that is held.
fn stop_at(held: Option<Fault>) -> Result<(), Stop>
    ensures { result ≡ stop_at held }
{
    match held {
        Some(fault) => Err(Stop::Fault(fault)),
        None => Ok(()),
    }
}

// What comes of all contracts, if the name that is asked for is met.
fn try_known(
    alloc: Global,
    choice: &Choice<'_>,
    reader: &mut ContractReader<'_>,
) -> Result<Tried, Stop>
    requires { HasBegun (declarations choice.now.decls.now) reader.old }
    ensures { KnowsName (declarations choice.now.decls.now) (selection choice.now) reader.old
        result }
{
    let tried = try_all(alloc, choice, reader)?;
    know(alloc, choice.named, tried.met)?;
    Ok(tried)
}

/// A stop that comes behind those at the text and by the name: the first of them. The contracts
/// that are left are read.
pub fn behind_names(
    alloc: Global,
    choice: &Choice<'_>,
    reader: &mut ContractReader<'_>,
    stop: Stop,
) -> Stop
    requires { HasBegun (declarations choice.now.decls.now) reader.old }
    ensures { IsBehindNames (declarations choice.now.decls.now) (selection choice.now) reader.old
        stop result }
{
    match try_known(alloc, choice, reader) {
        Ok(_) => stop,
        Err(first) => first,
    }
}

/// A stop that comes behind those at the text, by the name and by acceptance: the first of them.
/// The contracts that are left are read and tried.
pub fn behind_acceptance(
    alloc: Global,
    choice: &Choice<'_>,
    reader: &mut ContractReader<'_>,
    stop: Stop,
) -> Stop
    requires { HasBegun (declarations choice.now.decls.now) reader.old }
    ensures { IsBehindAcceptance (declarations choice.now.decls.now) (selection choice.now)
        reader.old stop result }
{
    match try_known(alloc, choice, reader) {
        Ok(tried) => match tried.refused {
            Some(fault) => Stop::Fault(fault),
            None => stop,
        },
        Err(first) => first,
    }
}

/// Of contracts that are all tried: stops by the name, at the first contract that is refused, or at
/// a fault that is held behind these.
pub fn first_stop(
    alloc: Global,
    named: Option<&str>,
    tried: Tried,
    held: Option<Fault>,
) -> Result<(), Stop>
    ensures { TellsFirst (given_text named.entry) tried held result }
{
    know(alloc, named, tried.met)?;
    stop_at(tried.refused)?;
    stop_at(held)
}
