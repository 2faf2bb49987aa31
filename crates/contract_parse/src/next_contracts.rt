//! The contracts of a text, one at a time, and its whole portfolio.
ghost use Rattle.std.specs.Prelude.{◌≡◌, ◌≤◌, ◌<◌, ◌∷◌, ◌++◌, [], IfErr, IfOk, IfSome, OnErr, false, length};
ghost use Rattle.term_model.specs.Limits.{longest_file};
ghost use Rattle.term_model.specs.Declarations.{declarations};
ghost use Rattle.term_model.specs.Terms.{contract};
ghost use Rattle.indexmap.specs.IndexMap.{keys};
ghost use Rattle.contract_grammar.specs.Names.{is_declared};
ghost use Rattle.contract_grammar.specs.Versions.{version_of};
ghost use Rattle.contract_grammar.specs.Statements.{named_contract};
ghost use Rattle.contract_parse.specs.Expecting.{contract_expected};
ghost use Rattle.contract_parse.specs.Reading.{declared_in};
ghost use Rattle.contract_parse.specs.Readers.{Extends, Reads};
ghost use Rattle.contract_grammar.specs.ContractReading.{trees};
ghost use Rattle.contract_parse.specs.NextContracts.{GoesOn, HasContracts, IsUnmoved, ReadsOn, Refuses, StartsContracts, bytes_left};
ghost use Rattle.contract_parse.specs.TextFaults.{Answers};

use crate::cursor::start_text;
use crate::faults::{ParseErr, PartErr};
use crate::portfolio::{read_beginning, read_definition};
use crate::readers::{after_word, declare, read_end};
use crate::short_texts::ShortText;
use crate::words::{Lookahead, look, next};
use decimal::NoMemory;
use indexmap::{IndexMap, IndexSet};
use std::alloc::Global;
use term_model::{Contr, Decls, Name, Portfolio};

/// A text of a portfolio that is read a contract at a time.
#[derive(Drop)]
pub struct ContractReader<'a> {
    text: ShortText<'a>,
    names: IndexSet<Name>,
    ahead: Lookahead<'a>,
}

/// The next contract of a text, and its name as it stands there.
#[derive(Drop)]
pub struct NextContract<'a> {
    pub name: &'a [u8],
    pub contr: Contr,
}

/// The declarations of a text, and a reader that stands before its first contract; or the first
/// fault.
pub fn start_contracts<'a>(
    alloc: Global,
    bytes: &'a [u8],
) -> Result<(Decls, ContractReader<'a>), ParseErr>
    requires { length bytes.now ≤ longest_file }
    ensures { StartsContracts bytes.entry.now result }
{
    if let Err(fault) = start_text(bytes) {
        return Err(ParseErr::Text(fault));
    }
    let text = ShortText { bytes };
    match read_beginning(alloc, bytes) {
        Ok((decls, ahead)) => {
            let names = IndexSet::new(alloc);
            Ok((decls, ContractReader { text, names, ahead }))
        }
        Err(error) => Err(text.fault_of(error)),
    }
}

// A contract behind its word, whose name is none of those before it and is added to them; what is
// refused adds none.
fn read_named<'a>(
    alloc: Global,
    decls: &Decls,
    names: &mut IndexSet<Name>,
    after: &'a [u8],
) -> Result<(NextContract<'a>, &'a [u8]), PartErr>
    ensures reads { Reads (Extends (declared_in decls.now names.old.keys)
        (λ r. declared_in decls.now names.new.keys)
        (contract_expected (version_of decls.now.version)))
        (λ r. named_contract (declared_in decls.now []) names.old.keys
        r.0.name.now (contract r.0.contr)) (λ r. r.1.now) after.now result }
    ensures added { IfOk result (λ r. names.new.keys ≡ names.old.keys ++ r.0.name.now ∷ []) }
    ensures kept { OnErr result (names.new.keys ≡ names.old.keys) }
    ensures shorter { IfOk result (λ r. length r.1.now < length after.now) }
{
    let (token, _) = next(after);
    let known = names.len();
    let rest = declare(alloc, names, after)?;
    match read_definition(alloc, decls, rest) {
        Ok((contr, rest)) => {
            let name = token.text;
            Ok((NextContract { name, contr }, rest))
        }
        Err(error) => {
            names.truncate(known);
            Err(error)
        }
    }
}

fn read_next<'a>(
    alloc: Global,
    decls: &Decls,
    reader: &mut ContractReader<'a>,
) -> Result<Option<NextContract<'a>>, PartErr>
    ensures next { ReadsOn (declarations decls.now) reader.old reader.new result }
    ensures unmoved { OnErr result (IsUnmoved reader.old reader.new) }
    ensures shorter { IfOk result (λ next. IfSome next
        (λ _. bytes_left reader.new < bytes_left reader.old)) }
{
    match after_word(&reader.ahead, b"contract") {
        Some(after) => {
            let (next, rest) = read_named(alloc, decls, &mut reader.names, after)?;
            reader.ahead = look(rest);
            Ok(Some(next))
        }
        None => {
            read_end(&reader.ahead)?;
            Ok(None)
        }
    }
}

/// The next contract of a text, none behind the last; or the first fault of the text. Only the name
/// is kept. Behind a refusal the reader stands where it stood.
pub fn next_contract<'a>(
    alloc: Global,
    decls: &Decls,
    reader: &mut ContractReader<'a>,
) -> Result<Option<NextContract<'a>>, ParseErr>
    ensures next { GoesOn (declarations decls.now) reader.old reader.new result }
    ensures unmoved { OnErr result (IsUnmoved reader.old reader.new) }
    ensures shorter { IfOk result (λ next. IfSome next
        (λ _. bytes_left reader.new < bytes_left reader.old)) }
{
    let text = reader.text;
    match read_next(alloc, decls, reader) {
        Ok(next) => Ok(next),
        Err(error) => Err(text.fault_of(error)),
    }
}

// Puts a contract behind those before it, if none of them has its name.
fn keep(
    alloc: Global,
    contracts: &mut IndexMap<Name, Contr>,
    next: NextContract<'_>,
) -> Result<(), NoMemory>
    ensures { IfOk result (λ _. is_declared (keys contracts.old) next.entry.name.now ≡ false
        → trees contracts.new.entries ≡ trees contracts.old.entries
        ++ (next.entry.name.now, contract next.entry.contr) ∷ []) }
{
    let name = Name::new(alloc, next.name)?;
    contracts.insert(name, next.contr)?;
    Ok(())
}

// The contracts of a text that is read to the end.
fn read_all(
    alloc: Global,
    decls: &Decls,
    reader: &mut ContractReader<'_>,
) -> Result<IndexMap<Name, Contr>, ParseErr>
    ensures all { IfOk result
        (λ contracts. HasContracts (declarations decls.now) reader.old (trees contracts.entries)) }
    ensures refused { IfErr result (λ e. Refuses (declarations decls.now) reader.old e) }
{
    let mut contracts = IndexMap::new(alloc);
    while let Some(next) = next_contract(alloc, decls, reader)? {
        if let Err(NoMemory) = keep(alloc, &mut contracts, next) {
            return Err(ParseErr::NoMemory);
        }
    }
    Ok(contracts)
}

/// The portfolio of a text, or the first fault of a text that has none.
pub fn parse_portfolio(alloc: Global, bytes: &[u8]) -> Result<Portfolio, ParseErr>
    requires { length bytes.now ≤ longest_file }
    ensures { Answers bytes.now result }
{
    let (decls, mut reader) = start_contracts(alloc, bytes)?;
    let contracts = read_all(alloc, &decls, &mut reader)?;
    Ok(Portfolio { decls, contracts })
}
