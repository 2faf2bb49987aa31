//! The commands on what contracts pay up to a last day: `flows`, `positions` and `settle`.
//!
//! Promised: each answers what its course tells, or the fault of the first stage that stops it.
//! Only tested: that it answers where there is memory.
#![tactic(auto)]

mod flows;
mod flows_until;
mod netting;

pub use flows::flows_text;
pub use netting::{positions_text, settlement_text};
