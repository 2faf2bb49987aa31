//! The commands on what code is worth: `value` and `scenarios`.
//!
//! Promised: each answers what its course tells, or the fault of the first stage that stops it.
//! Only tested: that it answers where there is memory.
#![tactic(auto)]

mod asking;
mod scenarios;
mod value;
mod value_names;

pub use scenarios::scenarios_text;
pub use value::value_text;
