//! A first crate on the libraries: what each contract of a portfolio pays in its first 365 days, if
//! nothing is observed. `docs/ENGINEER.md` goes through it. The portfolio is read from the standard
//! input.
//!
//! ```text
//! contract 0, day 90: party 1 pays party 0 10500 of asset 0
//! ```
//!
//! Promised: `table_of` answers the flow table of the model.
//! Only tested: what is printed of it.
#![tactic(auto)]

ghost use Rattle.std.specs.Prelude.{[], pos, IfOk};
ghost use Rattle.term_model.specs.Declarations.{declarations};
ghost use Rattle.term_model.specs.Terms.{contract};
ghost use Rattle.flow_eval.specs.FlowAnswers.{AreKnownFlows};

mod fault;

use anyhow::Result;
use contract_check::check;
use contract_parse::parse_portfolio;
use fault::Fault;
use fixing_files::Fixings;
use flow_eval::{FlowTable, flows};
use std::alloc::Global;
use std::io;
use term_core::{counts, has_only_numbers, is_closed};
use term_model::{Contr, Decls, LONGEST_FILE, MOST_COUNTED, Portfolio};

// The portfolio of a text.
fn portfolio_of(alloc: Global, text: &str) -> Result<Portfolio, Fault> {
    if text.len() as u64 > LONGEST_FILE {
        return Err(Fault::Text);
    }
    Ok(parse_portfolio(alloc, text.as_bytes())?)
}

// What a contract pays, from the start of its portfolio up to a day, if nothing is observed.
fn table_of(alloc: Global, decls: &Decls, c: &Contr, until: i64) -> Result<FlowTable, Fault>
    ensures { IfOk result (λ table. AreKnownFlows (declarations decls.now) (contract c.now) []
        (pos decls.now.start) until table.rows.items) }
{
    let size = counts(c);
    if size.height > 1_000 || size.nodes >= MOST_COUNTED {
        return Err(Fault::Refused);
    }
    if !is_closed(decls, c) || !has_only_numbers(c) {
        return Err(Fault::Refused);
    }
    check(alloc, decls, c)?;
    Ok(flows(alloc, decls, c, &Fixings::none(alloc), until)?)
}

fn main(rt: HostRuntime) -> Result<()> {
    let alloc = rt.alloc();
    let text = io::read_to_string(alloc, rt.reader())?;
    let portfolio = portfolio_of(alloc, text.as_str())?;
    for (place, (_, c)) in portfolio.contracts.iter().enumerate() {
        for row in &table_of(alloc, &portfolio.decls, c, 365)?.rows {
            println!(rt;
                "contract {place}, day {}: party {} pays party {} {} of asset {}",
                row.day, row.from, row.to, row.amount, row.asset
            )?;
        }
    }
    Ok(())
}
