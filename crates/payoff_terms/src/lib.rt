//! Payoff code in the manner of Annenkov and Elsman (PPDP 2018): what it is, what it is worth and
//! reads, when it is accepted, what it is that code means a contract, and what of it a text can
//! stand for. Its texts are in `payoff_lang`.
//!
//! ```text
//! let test = dated(alloc, &today, &expression)?;
//! let names = with_name(alloc, &date.names, template)?;
//! ```
//!
//! Promised: a value expression is that of an expression with dates for offsets (`with_date`), and
//! templates stand in rising order (`insert_name`, `insert_names`); `laws` on what code means.
//! Only tested: nothing; the crates above call all of it.
#![tactic(auto)]

mod code;
mod code_file;
mod dates;
mod dating;
pub mod laws;

pub use code::{Code, DateExpr, Vx};
pub use code_file::CodeFile;
pub use dates::{put_in_order, with_name};
pub use dating::{Dating, copied_date, dated};
