//! Terms with what fixings tell in them: what is put for an observable and for an accumulator of
//! which all is fixed, and the laws of it.
//!
//! ```text
//! let told = specialise_contr(alloc, &portfolio.decls, &contr, &fixings, day)?;
//! ```
//!
//! Promised: `specialise_contr` answers exactly what `specialised_in` says, which on that day pays
//! the same (`PaysTheSameOn`) and holds nothing that the fixings tell (`HasNoToldIn`). Only tested:
//! that it answers where there is memory (rows of `library_rows`).
#![tactic(auto)]

mod calls;
mod contracts;
mod expressions;
mod frames;
pub mod laws;
mod literals;

pub use calls::{specialise_contr, specialise_expr, specialise_shared};
pub use frames::Frame;
