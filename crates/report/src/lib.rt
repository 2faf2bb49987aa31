//! The lines that the program writes of verdicts, of flows, of values and of faults, the pieces
//! that lines are made of, and the sum of flow tables.
//!
//! ```text
//! let sum = net(alloc, &tables)?;
//! flow_line(alloc, &mut out, &portfolio.decls, b"*", row)?; // of a row of the sum
//! ```
//!
//! Promised: `flow_line` appends exactly the line of a row (`IsFlowLine`), or a front part of it;
//! `net` answers the table of what is paid together (`IsSumOf`); so does a `FlowSum`, to which
//! tables are added one by one, and which keeps none of them. `append` appends the pieces of a
//! line; `name_piece`, `asset_piece`, `date_of` and `amount_in_asset` say what stands in a line for
//! a name, a day and an amount.
//! Only tested: that they succeed if there is enough memory (rows of `run_rows`).
#![tactic(auto)]

mod check_lines;
mod fault_lines;
mod flow_lines;
mod pieces;
mod sums;
mod value_lines;

pub use check_lines::check_line;
pub use fault_lines::{Fault, fault_line};
pub use flow_lines::{amount_in_asset, asset_piece, date_of, flow_line, name_piece};
pub use pieces::{Piece, append};
pub use sums::{FlowSum, net};
pub use value_lines::value_line;
