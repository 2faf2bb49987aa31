//! Texts that are read, or have a first fault, and texts that are printed in their canonical form.

ghost use Rattle.std.specs.Prelude.{◌≤◌, length, All};
ghost use Rattle.term_model.specs.Limits.{most_counted};
ghost use Rattle.term_model.specs.Books.{book};
ghost use Rattle.contract_grammar.specs.Writable.{IsWritableTerm};

use crate::files::portfolio_of;
use contract_parse::parse_portfolio;
use contract_print::laws::texts_are_writable;
use contract_print::{print_decls, print_portfolio};
use row_language::{Answer, RowErr, push_output, say};
use std::alloc::Global;
use term_model::{Decls, MOST_COUNTED, Portfolio};

// The canonical text of a portfolio.
fn text_of(alloc: Global, portfolio: &Portfolio) -> Result<Vec<u8>, RowErr>
    requires { All (λ entry. IsWritableTerm entry.1) (book portfolio.now).contracts }
{
    let mut text = Vec::new(alloc);
    print_portfolio(alloc, &mut text, portfolio)?;
    Ok(text)
}

// Appends it.
fn say_portfolio(alloc: Global, portfolio: &Portfolio, out: &mut String) -> Answer
    requires { All (λ entry. IsWritableTerm entry.1) (book portfolio.now).contracts }
{
    let text = text_of(alloc, portfolio)?;
    push_output(out, &text)?;
    Ok(())
}

// The same of a text that is short, or its first fault.
fn say_printed(alloc: Global, text: &[u8], out: &mut String) -> Answer
    requires { length text.now ≤ most_counted }
{
    match parse_portfolio(alloc, text) {
        Ok(portfolio) => {
            texts_are_writable();
            say_portfolio(alloc, &portfolio, out)
        }
        Err(error) => say(&error, out),
    }
}

/// `print_portfolio FILE`: the canonical text of a portfolio, or its first fault.
pub fn printed(alloc: Global, text: &[u8], out: &mut String) -> Answer {
    if text.len() > MOST_COUNTED as usize {
        return Err(RowErr::Range);
    }
    say_printed(alloc, text, out)
}

/// Appends the canonical lines of declarations.
pub fn say_decls(alloc: Global, decls: &Decls, out: &mut String) -> Answer {
    let mut text = Vec::new(alloc);
    print_decls(alloc, &mut text, decls)?;
    push_output(out, &text)?;
    Ok(())
}

/// `print_decls FILE`: the canonical lines of the declarations of a portfolio.
pub fn printed_decls(alloc: Global, text: &[u8], out: &mut String) -> Answer {
    let portfolio = portfolio_of(alloc, text)?;
    say_decls(alloc, &portfolio.decls, out)
}
