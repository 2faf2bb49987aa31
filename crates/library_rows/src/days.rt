//! Calls on an accepted contract over fixings, on a day.

ghost use Rattle.std.specs.Prelude.{◌≤◌, ◌≤ℤ◌, ◌^◌, pos, unsigned_abs};
ghost use Rattle.term_model.specs.Limits.{last_start};
ghost use Rattle.term_model.specs.Declarations.{declarations};
ghost use Rattle.term_model.specs.Environments.{IsAdmitted};
ghost use Rattle.term_model.specs.Sizes.{height_of_contract};
ghost use Rattle.term_model.specs.Terms.{contract};
ghost use Rattle.specialise.specs.Specialised.{StandsAlone};

use crate::evaluating::evaluated;
use crate::files::{accept, contract_at, fixings_of, portfolio_of, wanted_of};
use crate::residuals::{advanced, carried, specialised, specialised_first, stepped};
use crate::words::{DayCall, frame};
use fixing_files::Fixings;
use row_language::{Answer, Rows, first_word};
use specialise::Frame;
use std::alloc::Global;
use term_model::{Contr, Decls, Portfolio};

// Answers a call, beside the contract that is wanted.
fn answer_on(
    alloc: Global,
    call: DayCall,
    decls: &Decls,
    c: &Contr,
    fixings: &Fixings,
    day: i64,
    wanted: &Contr,
    out: &mut String,
) -> Answer
    requires alone { StandsAlone (declarations decls.now) (contract c.now) }
    requires low { height_of_contract (contract c.now) ≤ 1_000 }
    requires admitted { IsAdmitted (declarations decls.now) fixings.now }
    requires first { pos 0 ≤ℤ day }
    requires last { day ≤ℤ pos last_start }
    requires near { unsigned_abs day ≤ 10 ^ 12 }
{
    match call {
        DayCall::Eval => evaluated(alloc, decls, c, fixings, day, out),
        DayCall::SpecialiseContr => specialised(alloc, decls, c, fixings, day, wanted, out),
        DayCall::SpecialiseExpr => {
            specialised_first(alloc, decls, c, fixings, Frame::Day { day }, wanted, out)
        }
        DayCall::SpecialiseUnknown => {
            specialised_first(alloc, decls, c, fixings, Frame::Unknown, wanted, out)
        }
        DayCall::Step => stepped(alloc, decls, c, fixings, day, wanted, out),
        DayCall::Carry => carried(alloc, decls, c, fixings, day, out),
        DayCall::Advance => advanced(alloc, decls, c, fixings, day as u32, wanted, out),
    }
}

// Answers a call on the first contract of a portfolio.
fn answer_over(
    alloc: Global,
    call: DayCall,
    portfolio: &Portfolio,
    fixings: &Fixings,
    day: &str,
    out: &mut String,
) -> Answer
    requires { IsAdmitted (declarations portfolio.now.decls) fixings.now }
{
    let c = contract_at(portfolio, 0)?;
    let wanted = wanted_of(portfolio)?;
    accept(alloc, &portfolio.decls, c)?;
    answer_on(
        alloc,
        call,
        &portfolio.decls,
        c,
        fixings,
        frame(day)?,
        wanted,
        out,
    )
}

// Answers a call over a table.
fn answer_with(
    alloc: Global,
    call: DayCall,
    portfolio: &Portfolio,
    rows: &Rows<'_>,
    words: &str,
    out: &mut String,
) -> Answer {
    let (table, day) = first_word(words);
    let fixings = fixings_of(alloc, rows.file(table)?, &portfolio.decls)?;
    answer_over(alloc, call, portfolio, &fixings, day, out)
}

/// Answers `CALL FILE TABLE DAY`.
pub fn answer_day(
    alloc: Global,
    call: DayCall,
    rows: &Rows<'_>,
    text: &[u8],
    words: &str,
    out: &mut String,
) -> Answer {
    let portfolio = portfolio_of(alloc, text)?;
    answer_with(alloc, call, &portfolio, rows, words, out)
}
