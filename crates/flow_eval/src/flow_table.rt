//! Flow tables.

/// On a day of the portfolio, `from` pays `to` the amount, in units of the portfolio's least
/// decimal, of the asset.
#[derive(Clone, Copy, Debug, PartialEq, Eq)]
pub struct FlowRow {
    pub day: i64,
    pub asset: u32,
    pub from: u32,
    pub to: u32,
    pub amount: i128,
}

/// Where a flow table holds what is paid: on a day, in an asset, between two parties in declared
/// order. The fields are in the order by which the rows of a table are ordered.
#[derive(Clone, Copy, Debug, PartialEq, Eq, PartialOrd, Ord)]
pub struct Slot {
    pub day: i64,
    pub asset: u32,
    pub lower: u32,
    pub higher: u32,
}

/// The flows of a contract, ordered by day, asset, lower and higher party in declared order.
#[derive(Debug, PartialEq, Eq, Drop)]
pub struct FlowTable {
    pub rows: Vec<FlowRow>,
}
