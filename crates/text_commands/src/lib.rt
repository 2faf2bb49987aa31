//! The commands that judge or write what contracts say: `check`, `migrate`, `expand` and `payoff`.
//!
//! Promised: each answers what its course tells, or the fault of the first stage that stops it.
//! Only tested: that it answers where there is memory.
#![tactic(auto)]

mod check;
mod expand;
mod migrate;
mod payoff;

pub use check::check_text;
pub use expand::expand_text;
pub use migrate::migrated_text;
pub use payoff::payoff_text;
