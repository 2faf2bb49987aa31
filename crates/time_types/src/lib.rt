//! The first two rules of acceptance. Sorts: each expression is a number or a truth value, each
//! factor a number and each test a truth value. Times: nothing is paid before it is known.
//!
//! ```text
//! sorts(alloc, &portfolio.decls, &contr)?;
//! let start = times(alloc, &portfolio.decls, &contr)?;
//! ```
//!
//! Promised: `sorts` and `times` answer that their rule holds, `times` with the start, or the first
//! node at which it fails (`IsVerdict`).
//! Only tested: that they answer, since the clauses leave want of memory open, which never comes
//! (by
//! `contract_check`, in rows of `library_rows`).
#![tactic(auto)]

mod laws;
mod observed_sorts;
mod sort_rule;
mod starts;
mod time_rule;

pub use laws::typing_is_kept;
pub use observed_sorts::{Sort, sort_observed};
pub use sort_rule::{sort_of_expr, sorts};
pub use starts::Start;
pub use time_rule::times;
