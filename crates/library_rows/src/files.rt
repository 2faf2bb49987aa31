//! What the files of a row contain.

ghost use Rattle.std.specs.Prelude.{◌≤◌, ◌<◌, IfOk};
ghost use Rattle.term_model.specs.Limits.{most_counted};
ghost use Rattle.term_model.specs.Declarations.{declarations};
ghost use Rattle.term_model.specs.Environments.{IsAdmitted};
ghost use Rattle.term_model.specs.Sizes.{height_of_contract, nodes_of_contract};
ghost use Rattle.term_model.specs.Terms.{contract};
ghost use Rattle.term_model.specs.WellFormed.{HasOnlyNumbers, IsClosed};
ghost use Rattle.specialise.specs.Specialised.{StandsAlone};

use contract_check::check;
use contract_parse::parse_portfolio;
use fixing_files::{Fixings, read_fixings};
use payoff_lang::parse_code;
use payoff_terms::CodeFile;
use row_language::RowErr;
use std::alloc::Global;
use term_core::{counts, has_only_numbers, is_closed};
use term_model::{CheckErr, Contr, Decls, MOST_COUNTED, Portfolio};

/// The portfolio of a text.
pub fn portfolio_of(alloc: Global, text: &[u8]) -> Result<Portfolio, RowErr> {
    if text.len() > MOST_COUNTED as usize {
        return Err(RowErr::Range);
    }
    match parse_portfolio(alloc, text) {
        Ok(portfolio) => Ok(portfolio),
        Err(_) => Err(RowErr::Text),
    }
}

/// The contract of a portfolio at this place.
pub fn contract_at(portfolio: &Portfolio, place: usize) -> Result<&Contr, RowErr> {
    match portfolio.contracts.get_index(place) {
        Some((_, contr)) => Ok(contr),
        None => Err(RowErr::Text),
    }
}

/// The contract that is wanted: the last one of a portfolio.
pub fn wanted_of(portfolio: &Portfolio) -> Result<&Contr, RowErr> {
    contract_at(portfolio, portfolio.contracts.len().saturating_sub(1))
}

/// The code file of a text.
pub fn code_of(alloc: Global, text: &[u8]) -> Result<CodeFile, RowErr> {
    if text.len() > MOST_COUNTED as usize {
        return Err(RowErr::Range);
    }
    match parse_code(alloc, text) {
        Ok(file) => Ok(file),
        Err(_) => Err(RowErr::Text),
    }
}

/// The fixings of a table.
pub fn fixings_of(alloc: Global, text: &[u8], decls: &Decls) -> Result<Fixings, RowErr>
    ensures { IfOk result (λ fixings. IsAdmitted (declarations decls.now) fixings) }
{
    if text.len() > MOST_COUNTED as usize {
        return Err(RowErr::Range);
    }
    match read_fixings(alloc, text, decls) {
        Ok(fixings) => Ok(fixings),
        Err(_) => Err(RowErr::Text),
    }
}

/// Stops at a contract that is too large, is not closed, or names a template.
pub fn try_form(decls: &Decls, c: &Contr) -> Result<(), RowErr>
    ensures closed { IfOk result (λ _. IsClosed (declarations decls.now) (contract c.now)) }
    ensures numbers { IfOk result (λ _. HasOnlyNumbers (contract c.now)) }
    ensures low { IfOk result (λ _. height_of_contract (contract c.now) ≤ 1_000) }
    ensures small { IfOk result (λ _. nodes_of_contract (contract c.now) < most_counted) }
{
    let size = counts(c);
    if size.height > 1_000 || size.nodes >= MOST_COUNTED {
        return Err(RowErr::Range);
    }
    if !is_closed(decls, c) || !has_only_numbers(c) {
        return Err(RowErr::Text);
    }
    Ok(())
}

/// Stops at a contract that is not accepted.
pub fn accept(alloc: Global, decls: &Decls, c: &Contr) -> Result<(), RowErr>
    ensures alone { IfOk result (λ _. StandsAlone (declarations decls.now) (contract c.now)) }
    ensures low { IfOk result (λ _. height_of_contract (contract c.now) ≤ 1_000) }
{
    try_form(decls, c)?;
    match check(alloc, decls, c) {
        Ok(_) => Ok(()),
        Err(CheckErr::Refused { .. }) => Err(RowErr::Refused),
        Err(CheckErr::NoMemory) => Err(RowErr::NoMemory),
    }
}
