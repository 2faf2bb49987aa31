//! The last rule of acceptance, bounds, and what it guarantees: an accepted contract never leaves
//! 128 bits, never divides by 0, and never pays more than its total.
//!
//! ```text
//! let total = bounds(alloc, &portfolio.decls, &contr)?;
//! ```
//!
//! Promised: `bounds` answers the total, or the first node at which the rule fails (`IsVerdict`);
//! the laws
//! `accepted_contracts_are_safe` and `payments_add_up_to_total` say what follows.
//! Only tested: that it answers, since the clauses leave want of memory open, which never comes (by
//! `contract_check`, in rows of `library_rows`).
#![tactic(auto)]

mod bound_rule;
mod intervals;
mod laws;
mod quotients;
mod range_rule;
mod range_scopes;
mod ranges;
mod steady;
mod totals;

pub use bound_rule::bounds;
pub use intervals::{Interval, greatest_size_in};
pub use laws::{
    accepted_contracts_are_safe, all_payments_add_up_to_total, declarations_keep_limits,
    evaluation_is_safe, narrower_ranges_keep_rules, payments_add_up_to_total,
    rules_hold_by_structure, rules_see_no_offsets, values_lie_in_intervals,
};
pub use range_rule::range_of;
pub use ranges::Range;
