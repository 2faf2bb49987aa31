//! What parties come to by flow tables: their positions, payments that settle them, and the lines
//! of positions; and contracts with one party in the place of another.
//!
//! ```text
//! let found = positions(alloc, &tables)?;
//! let settled = settle(alloc, &found)?; // a flow table with the same positions, in few rows
//! position_line(alloc, &mut out, &portfolio.decls, row)?; // of a row of the positions
//! let novated = rename(alloc, &contr, old, new)?;
//! ```
//!
//! Promised: `positions` answers a row for each day, asset and party that does not come to 0, and
//! no other (`ArePositions`); `settle` payments that leave each party there, at least one fewer
//! than such parties (`Settles`), in a set order (`ArePaidInTurn`); `rename` the contract with the
//! new party (`renamed`); `position_line` appends exactly the line of a row (`IsPositionLine`), or
//! a front part of it. Not promised: that they succeed where there is memory. The rows of
//! `run_rows` show calls that do.
#![tactic(auto)]

mod accounts;
mod entries;
mod laws;
mod position_lines;
mod positioning;
mod renaming;
mod settlement;

pub use accounts::{PositionRow, Positions};
pub use laws::{
    accepted_tables_add_up, nets_leave_positions, one_settlement, renamed_contracts_pay_as_renamed,
    renaming_keeps_rules, settlement_keeps_within_tables,
};
pub use position_lines::position_line;
pub use positioning::positions;
pub use renaming::rename;
pub use settlement::settle;
