//! Which payoff code is accepted at a setting: the rules on sorts, scales, sizes and bounds, in
//! this order. For value expressions the first two and the last are the rules of contracts, tried
//! on the undated expression, which is made where the value expression stands and dropped at once.
//!
//! ```text
//! let facts = check_code(alloc, &file, &setting)?; // its scale and its total
//! ```
//!
//! Promised: `check_code` answers the facts of accepted code, or the first rule that fails and the
//! first node at which it does (`IsCheckedCode`).
//! Only tested: that it answers if there is enough memory (rows of `run_rows`).
#![tactic(auto)]

mod bound_rule;
mod checks;
mod days;
mod decimals;
mod faults;
mod laws;
mod part_sizes;
mod scale_rule;
mod size_rule;
mod sort_rule;
mod totals;
mod undated;
mod value_sizes;

pub use checks::{CodeFacts, check_code};
pub use laws::code_has_one_verdict;
