//! Two rules of acceptance. Scales: a contract has no more decimals than the portfolio's amounts,
//! and what it pays in an asset no more than the asset has. Sizes: its nodes, its height, its days
//! and the steps of its evaluation keep their limits.
//!
//! ```text
//! let scale = scales(alloc, &portfolio.decls, &contr)?;
//! let reach = sizes(&contr)?; // takes no memory
//! ```
//!
//! Promised: `scales` answers the scale and `sizes` the reach, or the first node at which the rule
//! fails (`IsVerdict`, `IsSizeVerdict`).
//! Only tested: that `scales` answers, since the clauses leave want of memory open, which never
//! comes (by
//! `contract_check`, in rows of `library_rows`).
#![tactic(auto)]

mod contract_scales;
mod part_sizes;
mod scale_rule;
mod scale_scopes;
mod size_rule;

pub use scale_rule::{GREATEST_SCALE, scale_of_expr, scales};
pub use size_rule::sizes;
