//! Calls on the contracts of a portfolio: their counts, the rules of acceptance, each by the call
//! of its own and all of them by one, and the code that they are compiled to.

ghost use Rattle.std.specs.Prelude.{◌≤◌, ◌<◌};
ghost use Rattle.term_model.specs.Limits.{most_counted};
ghost use Rattle.term_model.specs.Declarations.{declarations};
ghost use Rattle.term_model.specs.Sizes.{height_of_contract, nodes_of_contract};
ghost use Rattle.term_model.specs.Terms.{contract};
ghost use Rattle.term_model.specs.WellFormed.{HasOnlyNumbers, IsClosed};
ghost use Rattle.specialise.specs.Specialised.{StandsAlone};

use crate::files::{accept, code_of, contract_at, portfolio_of, try_form, wanted_of};
use crate::words::ContractCall;
use contract_check::check;
use decimal::NoMemory;
use exposure::rename;
use interval_check::bounds;
use payoff_compile::compile;
use payoff_terms::Code;
use row_language::{Answer, say, say_same};
use scale_check::{scales, sizes};
use simplify::simplify;
use std::alloc::Global;
use term_core::counts;
use term_model::{CheckErr, Contr, Decls, Portfolio, RuleFault};
use time_types::{Start, sorts, times};

// What each rule answers of a contract that meets them all: its start, its scale, its reach and its
// total; or the first rule that the contract breaks.
fn by_rules(alloc: Global, decls: &Decls, c: &Contr) -> Result<(Start, u8, u32, i128), CheckErr>
    requires closed { IsClosed (declarations decls.now) (contract c.now) }
    requires numbers { HasOnlyNumbers (contract c.now) }
    requires low { height_of_contract (contract c.now) ≤ 1_000 }
    requires small { nodes_of_contract (contract c.now) < most_counted }
{
    sorts(alloc, decls, c)?;
    let start = times(alloc, decls, c)?;
    let scale = scales(alloc, decls, c)?;
    match sizes(c) {
        Ok(reach) => Ok((start, scale, reach, bounds(alloc, decls, c)?)),
        Err(RuleFault { rule, node }) => Err(CheckErr::Refused { rule, node }),
    }
}

// Appends what the five rules answer of a contract, one after another, or the first that it breaks;
// and then what the check of all says.
fn say_checked(alloc: Global, decls: &Decls, c: &Contr, out: &mut String) -> Answer {
    try_form(decls, c)?;
    say(&by_rules(alloc, decls, c), out)?;
    say(&check(alloc, decls, c), out)
}

// Appends whether an accepted contract, without the redexes that ask for no day, is the one that is
// wanted.
fn say_simple(alloc: Global, decls: &Decls, c: &Contr, wanted: &Contr, out: &mut String) -> Answer {
    accept(alloc, decls, c)?;
    let simple = simplify(alloc, decls, c)?;
    say_same(simple == *wanted, out)
}

// Appends whether a contract, with the second party in the place of the first, is the one that is
// wanted.
fn say_renamed(alloc: Global, c: &Contr, wanted: &Contr, out: &mut String) -> Answer {
    let other = rename(alloc, c, 0, 1)?;
    say_same(other == *wanted, out)
}

// Answers a call on the first contract of a portfolio.
fn answer_first(
    alloc: Global,
    call: ContractCall,
    portfolio: &Portfolio,
    out: &mut String,
) -> Answer {
    let c = contract_at(portfolio, 0)?;
    let wanted = wanted_of(portfolio)?;
    match call {
        ContractCall::Check => say_checked(alloc, &portfolio.decls, c, out),
        ContractCall::Counts => say(&counts(c), out),
        ContractCall::Rename => say_renamed(alloc, c, wanted, out),
        ContractCall::Simplify => say_simple(alloc, &portfolio.decls, c, wanted, out),
    }
}

/// Answers `check FILE`, `counts FILE`, `rename FILE` or `simplify FILE`.
pub fn answer_contract(alloc: Global, call: ContractCall, text: &[u8], out: &mut String) -> Answer {
    let portfolio = portfolio_of(alloc, text)?;
    answer_first(alloc, call, &portfolio, out)
}

// The code of an accepted contract without names of templates.
fn code_of_contract(alloc: Global, decls: &Decls, c: &Contr) -> Result<Code, NoMemory>
    requires { StandsAlone (declarations decls.now) (contract c.now) }
{
    compile(alloc, decls, c)
}

// Appends whether the code of a contract is the one that is wanted.
fn say_compiled(
    alloc: Global,
    decls: &Decls,
    c: &Contr,
    wanted: &Code,
    out: &mut String,
) -> Answer {
    accept(alloc, decls, c)?;
    let code = code_of_contract(alloc, decls, c)?;
    say_same(code == *wanted, out)
}

// The same of the first contract of a portfolio, and the code of a file.
fn say_compiled_as(
    alloc: Global,
    portfolio: &Portfolio,
    wanted: &[u8],
    out: &mut String,
) -> Answer {
    let c = contract_at(portfolio, 0)?;
    let file = code_of(alloc, wanted)?;
    say_compiled(alloc, &portfolio.decls, c, &file.code, out)
}

/// `compile FILE CODE`: whether the first contract of a portfolio has the code of a code file.
pub fn compiled(alloc: Global, text: &[u8], wanted: &[u8], out: &mut String) -> Answer {
    let portfolio = portfolio_of(alloc, text)?;
    say_compiled_as(alloc, &portfolio, wanted, out)
}
