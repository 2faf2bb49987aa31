//! The contracts of a portfolio that a command uses, all or the one of a name. Each is read, tried
//! at the defaults, and handed on or dropped before the next.
//!
//! Promised: a contract is handed on only if it is accepted, as are all before it. What stops a
//! command is the first that does: the text, the name, acceptance, or what comes behind these.
//! Only tested: that there is memory for it.
#![tactic(auto)]

mod accepting;
mod choice;
mod choosing;
mod over_fixings;
mod reading;

pub use accepting::{accept_named, verdict};
pub use choice::Choice;
pub use choosing::{Tried, all_contracts, behind_names, choose, first_stop, nothing_tried};
pub use over_fixings::fixings_over;
pub use reading::{made_of, read_next, start_reading};
