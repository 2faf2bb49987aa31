//! The canonical text of portfolios, of either version: the one spelling of each that the program
//! writes, which reads back as the same portfolio.
//!
//! ```text
//! print_portfolio(alloc, &mut out, &portfolio)?;
//! ```
//!
//! Promised: `print_portfolio` appends exactly that text (`AppendsBook`), or nothing; it reads back
//! (`laws::canon_is_text`). A caller without a portfolio in memory makes the same text by
//! `print_beginning` (`AppendsBeginning`), and then `print_contract` for each contract
//! (`proofs/LineByLine.antt`).
//! Only tested: that it is printed where there is memory (rows of `library_rows`).
#![tactic(auto)]

mod contrs;
mod decls;
mod exprs;
pub mod laws;
mod pieces;
mod portfolio;
mod words;

pub use contrs::{append_asset_name, append_label_name, append_name, append_template_name};
pub use decls::{append_decls, origin_date, print_decls};
pub use exprs::{Leaf, append_expr};
pub use pieces::{append, append_bound_name};
pub use portfolio::{print_beginning, print_contract, print_portfolio};
