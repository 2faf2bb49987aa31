//! Rewriting terms: expressions of which parts are replaced, literals for names; and laws of them,
//! of what may stand for a part, of offsets, of what is worth the same, of what is no larger, and
//! of redexes by structure. Reductions and residuals stand on them.
//!
//! ```text
//! let new = substituted(alloc, &body, 0, &literal(kind, value))?; // None where nothing changes
//! let body = kept(alloc, &body, new)?;
//! ```
//!
//! Promised: `substituted` answers the definition of its name (`specs/Substituting.antt`), and
//! `kept` the part or what stands for it (`after`); `laws` says what rewriting keeps.
//! Only tested: that it answers where there is memory (by `simplify`, in rows of `library_rows`).
#![tactic(auto)]

mod contract_names;
mod contracts;
pub mod laws;
mod naming;
mod rebuilding;

pub use contract_names::{substituted_in, uses_in};
pub use contracts::{after_of, both_of, kept_expression, kept_part, let_of, scale_of, within_of};
pub use naming::{names_within, substituted, uses};
pub use rebuilding::{kept, literal, of_one, of_three, of_two};
