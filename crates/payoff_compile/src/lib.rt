//! Contracts as payoff code, in the manner of Annenkov and Elsman (PPDP 2018), and code whose
//! payments are cut once they are gone by.
//!
//! ```text
//! let code = compile(alloc, &portfolio.decls, &contr)?;
//! let rest = cut(alloc, code)?;
//! ```
//!
//! Promised: `compile` answers code that means the contract at every setting at which it is
//! accepted (`IsPlainCode`), and `cut` code that counts what is left to be paid (`CountsTheRest`).
//! `into_code` takes the contract and answers the same code, and `into_cut_code` its cut code.
//! Only tested: that they answer where there is memory (rows of `library_rows`).
#![tactic(auto)]

mod compiling;
mod cutting;
mod dates;
pub mod laws;

pub use compiling::{compile, into_code, into_cut_code};
pub use cutting::cut;
