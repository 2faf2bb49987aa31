//! The value of payoff code on a day, over fixings and by a curve of discount factors, in the
//! manner of Annenkov and Elsman (PPDP 2018); or the first observable that is missing.
//!
//! ```text
//! let mut scratch = accepted_scratch(alloc)?;
//! let worth = value(&file, &setting, &fixings, &curve, at, from, to, asset, &mut scratch)?;
//! ```
//!
//! Promised: `value` answers what the code is worth, the same in every environment that extends the
//! fixings, or the first read that is not fixed (`AnswersValue`).
//! Only tested: that a scratch is made where there is memory (rows of `run_rows`);
//! `value` takes none.
#![tactic(auto)]

mod asking;
mod dates;
mod evaluation;
mod heights;
mod kinds;
pub mod laws;
mod scratch;
mod values;
mod walk;

pub use scratch::{ValueScratch, accepted_scratch, value_scratch};
pub use values::{value, value_layered};
