//! The observables of code, `model(NAME, DATE)`: their dates are put into a list while an
//! expression is read.

ghost use Rattle.std.specs.Prelude.{◌≡◌, ◌≤ℤ◌, ◌++◌, ◌∷◌, [], ℤ, IfOk, OnOk, length, pos};
ghost use Rattle.contract_parse.specs.Expecting.{date_expected};
ghost use Rattle.contract_parse.specs.Reading.{declared_in};
ghost use Rattle.contract_parse.specs.Readers.{KeepsLeaves, Passes, Reads};
ghost use Rattle.contract_grammar.specs.declared.terms.Language.{Language};
ghost use Rattle.payoff_lang.specs.CodeReading.{IsListed, ListedDate, date_listed, dates_of, listed_leaf};

use crate::date_reading::read_date;
use contract_grammar::Language;
use contract_parse::{LeafReader, PartErr, read_use_of_map, skip_mark};
use decimal::NoMemory;
use payoff_terms::{DateExpr, Dating, copied_date};
use std::alloc::Global;
use term_model::{Decls, Expr};

/// The dates of an expression's observables, each of which has the index of its date for an offset.
#[derive(Drop)]
pub struct Models {
    dates: Vec<DateExpr>,
}

impl Models {
    /// No dates yet.
    pub fn new(alloc: Global) -> Models {
        Models {
            dates: Vec::new(alloc),
        }
    }
}

// Puts a date behind the others, and answers its index. An offset has room for 2^31 of them: where
// one expression has more, memory is wanting.
fn hold(dates: &mut Vec<DateExpr>, on: DateExpr) -> Result<i32, NoMemory>
    ensures index { IfOk result (λ index. index ≡ pos (length dates.old.items)) }
    ensures small { IfOk result (λ index. index ≤ℤ pos 2_147_483_647) }
    ensures dates { OnOk result (dates.new.items ≡ dates.old.items ++ on ∷ []) }
{
    let index = i32::try_from(dates.len()).map_err(|_| NoMemory)?;
    dates.push(on)?;
    Ok(index)
}

// A date, which is put into the list; its index is read.
fn read_listed_date<'a>(
    alloc: Global,
    dates: &mut Vec<DateExpr>,
    decls: &Decls,
    rest: &'a [u8],
) -> Result<(i32, &'a [u8]), PartErr>
    ensures reads { Reads (Passes decls.now (λ s ps. date_expected ps))
        (λ r. ListedDate (dates_of dates.new.items) (declared_in decls.now []) r.0)
        (λ r. r.1.now) rest.now result }
    ensures kept { OnOk result (KeepsLeaves (λ s. listed_leaf (dates_of dates.old.items) s)
        (λ s. listed_leaf (dates_of dates.new.items) s)) }
{
    let (on, rest) = read_date(alloc, decls, rest)?;
    let index = hold(dates, on)?;
    Ok((index, rest))
}

impl LeafReader for Models {
    ghost LANGUAGE = { Language.Code };

    ghost leaf = { λ m s. listed_leaf (dates_of m.dates.items) s };

    const LANGUAGE: Language = Language::Code;

    fn read_leaf<'a>(
        &mut self,
        alloc: Global,
        decls: &Decls,
        rest: &'a [u8],
    ) -> Result<(Expr, &'a [u8]), PartErr> {
        let rest = skip_mark(rest, b"(")?;
        let (label, rest) = read_use_of_map(&decls.labels, rest)?;
        let rest = skip_mark(rest, b",")?;
        let (offset, rest) = read_listed_date(alloc, &mut self.dates, decls, rest)?;
        let rest = skip_mark(rest, b")")?;
        Ok((Expr::Obs { label, offset }, rest))
    }
}

impl Dating for Models {
    ghost has = { λ m index. IsListed (dates_of m.dates.items) index };

    ghost on = { λ m index. date_listed (dates_of m.dates.items) index };

    fn date_at(&self, alloc: Global, offset: i32) -> Result<DateExpr, NoMemory> {
        copied_date(alloc, &self.dates[offset as usize])
    }
}
