//! The sample: a portfolio and fixings that the program makes by itself, and the summary of their
//! flows.
//!
//! ```text
//! let text = summary(alloc, 50)?; // of the first 50 of its contracts
//! ```
//!
//! Promised: `summary` answers how many contracts and flow lines there are and what they come to,
//! by the model (`IsSummary`).
//! Only tested: that it answers where there is memory (`contract_cli/src/tests.rt`).
#![tactic(auto)]

mod contracts;
mod days;
mod declared;
mod fixed;
mod lines;
mod summing;

pub use summing::summary;
