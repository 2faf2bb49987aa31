//! The commands that carry contracts on: `advance` to a new day, and `novate` to a new party too.
//!
//! Promised: each answers what its course tells, or the fault of the first stage that stops it. Two
//! texts of the same files begin with the same lines of what is due.
//! Only tested: that it answers where there is memory.
#![tactic(auto)]

mod advance;
mod advance_to;
mod novate;

pub use advance::advance_text;
pub use novate::novate_text;
