//! The simplifier: it takes away the redexes of a contract that ask for no frame, by turns over its
//! parts and itself. And the laws of turns.
//!
//! ```text
//! let simpler = simplify(alloc, &portfolio.decls, &contr)?;
//! ```
//!
//! Promised: what `simplify` answers is accepted, pays the same (`PaysTheSame`), has no such redex
//! (`HasNoPlainRedex`) and is no larger (`IsNoLargerIn`).
//! Only tested: which of several such contracts it answers, and that it does where there is memory
//! (rows of `library_rows`).
#![tactic(auto)]

mod contracts;
mod folding;
pub mod laws;
mod names;
mod simplifying;
mod turns;

pub use contracts::is_nothing;
pub use simplifying::{simplify, simplify_shared, turn_shared};
