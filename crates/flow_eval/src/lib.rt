//! The flows of an accepted contract over fixings: a table of what is paid, or the first observable
//! that is missing.
//!
//! ```text
//! let table = flows(alloc, &portfolio.decls, &contr, &fixings, until)?;
//! ```
//!
//! Promised: `flows` answers the table of the model, the same in every environment that extends the
//! fixings, or the first read that is not fixed (`AreFlows`).
//! Only tested: that it answers where there is memory (rows of `library_rows`).
#![tactic(auto)]

mod faults;
mod flow_table;
mod laws;
mod names;
mod netting;
mod payments;
mod shared_tables;
mod shared_walk;
mod tables;
mod walk;

pub use faults::FlowErr;
pub use flow_table::{FlowRow, FlowTable, Slot};
pub use laws::{one_answer, one_table};
pub use netting::{net_payments, netted};
pub use payments::{Payment, Transfer, payment_on};
pub use shared_tables::flows_shared;
pub use tables::{LAST_DAY, flows, flows_on};
