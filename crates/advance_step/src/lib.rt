//! Contracts that are advanced over days: what they pay on the days gone by and what is left of
//! them, with the laws of it.
//!
//! ```text
//! let advanced = advance(alloc, &portfolio.decls, &contr, &fixings, days)?;
//! // its due flows, its rest; or into_advanced, of a contract that is handed over
//! ```
//!
//! Promised: `advance` and `into_advanced` answer the flows that are due and a contract without
//! redexes that carries the first one on, the one that `residual` is, or the first read that is not
//! fixed (`Advances`).
//! Only tested: that they answer if there is enough memory (rows of `run_rows` and `library_rows`).
#![tactic(auto)]

mod advancing;
mod carried;
mod gone;
mod handed_on;
mod known;
pub mod laws;
mod parts;
mod questions;
mod reducing;
mod residual;
mod settled;
mod simple_contracts;
mod span;
mod stepping;
mod walk;

pub use advancing::{Advanced, advance, into_advanced};
pub use carried::carry;
pub use stepping::{SharedAdvanced, step, step_shared};
