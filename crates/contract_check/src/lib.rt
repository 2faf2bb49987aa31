//! Which contracts are accepted: all five rules, in their order; and what is said of an accepted
//! contract.
//!
//! ```text
//! let facts = check(alloc, &portfolio.decls, &contr)?; // its start, scale, total and horizon
//! ```
//!
//! Promised: `check` answers the facts of an accepted contract, which is causal then, or the first
//! rule that fails and the first node at which it does (`IsChecked`).
//! Only tested: that it answers where there is memory (rows of `library_rows`). Only measured: that
//! one walk does for a contract that meets the rules by small numbers and is made of transfers,
//! sums, waits, and factors that are literals or rounded products of what is observed and a literal
//! (`simple_contracts`), where any other takes a walk for each rule.
#![tactic(auto)]

mod checks;
mod horizons;
mod laws;
mod simple_contracts;
mod simple_factors;

pub use checks::{Facts, check};
pub use horizons::horizon;
pub use laws::{answers_are_unique, contracts_are_causal};
