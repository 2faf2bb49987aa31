//! Dates of payoff code from texts.

ghost use Rattle.std.specs.Prelude.{◌∷◌, IfOk, codes};
ghost use Rattle.indexmap.specs.IndexMap.{keys};
ghost use Rattle.contract_grammar.specs.Tokens.{tokens};
ghost use Rattle.contract_parse.specs.Expecting.{MoreTemplates, date_expected};
ghost use Rattle.contract_parse.specs.Reading.{LacksMark};
ghost use Rattle.contract_parse.specs.Readers.{Passes, Reads};
ghost use Rattle.payoff_lang.specs.CodeReading.{AddsTemplates, RisingTemplates, date_in};

use contract_parse::{PartErr, after_mark, read_date_number, read_use_of_map};
use payoff_terms::{DateExpr, put_in_order};
use std::alloc::Global;
use term_model::Decls;

// The templates behind a date's number, as they are written. They are put behind those that stand
// in the list.
fn push_templates<'a>(
    decls: &Decls,
    names: &mut Vec<u32>,
    rest: &'a [u8],
) -> Result<&'a [u8], PartErr>
    ensures reads { Reads (Passes decls.now (λ s ps. MoreTemplates ∷ ps))
        (λ r. AddsTemplates (keys decls.now.templates) names.old.items names.new.items)
        (λ r. r.now) rest.now result }
    ensures ends { IfOk result (λ r. LacksMark (codes "+") (tokens r.now)) }
{
    let mut rest = rest;
    while let Some(after) = after_mark(rest, b"+") {
        let (name, behind) = read_use_of_map(&decls.templates, after)?;
        names.push(name)?;
        rest = behind;
    }
    Ok(rest)
}

// The templates behind a date's number, in rising order.
fn read_templates<'a>(
    alloc: Global,
    decls: &Decls,
    rest: &'a [u8],
) -> Result<(Vec<u32>, &'a [u8]), PartErr>
    ensures reads { Reads (Passes decls.now (λ s ps. MoreTemplates ∷ ps))
        (λ r. RisingTemplates (keys decls.now.templates) r.0.items) (λ r. r.1.now) rest.now result }
    ensures ends { IfOk result (λ r. LacksMark (codes "+") (tokens r.1.now)) }
{
    let mut names = Vec::new(alloc);
    let rest = push_templates(decls, &mut names, rest)?;
    put_in_order(&mut names);
    Ok((names, rest))
}

/// A date, and the text behind it, where no further template stands.
pub fn read_date<'a>(
    alloc: Global,
    decls: &Decls,
    rest: &'a [u8],
) -> Result<(DateExpr, &'a [u8]), PartErr>
    ensures reads { Reads (Passes decls.now (λ s ps. date_expected ps)) (λ r. date_in decls.now r.0)
        (λ r. r.1.now) rest.now result }
    ensures ends { IfOk result (λ r. LacksMark (codes "+") (tokens r.1.now)) }
{
    let (days, rest) = read_date_number(rest)?;
    let (names, rest) = read_templates(alloc, decls, rest)?;
    Ok((DateExpr { days, names }, rest))
}
