//! The texts of payoff code: their canonical form, and how they are read. What code is, is worth
//! and means is in `payoff_terms`, which is passed on.
//!
//! ```text
//! let file = parse_code(alloc, &bytes)?;
//! print_code(alloc, &mut out, &file)?;
//! ```
//!
//! Promised: `parse_code` answers the code file of a text or the first fault (`CodeAnswers`);
//! `print_code` appends exactly its canonical text (`AppendsCode`), or nothing.
//! Only tested: that they succeed if there is enough memory (rows of `run_rows`).
#![tactic(auto)]

mod date_reading;
pub mod laws;
mod models;
mod numbering;
mod parsing;
mod printing;
mod reading;

pub use parsing::parse_code;
pub use payoff_terms::{Code, CodeFile, DateExpr, Vx};
pub use printing::print_code;
