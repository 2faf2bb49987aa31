//! Values of expressions on a day, over fixings, with entries for the names that are bound around
//! them.
//!
//! ```text
//! let mut scratch = Scratch::for_contract(alloc, &contr)?;
//! let value = eval(&portfolio.decls, &expr, &mut scratch, &fixings, day)?;
//! ```
//!
//! Promised: `eval` answers the value of the model, the same in every environment that extends the
//! fixings, or the first read that is not fixed (`IsAnswer`). `operations` has one operator each on
//! typed values, and
//! `value_bound` to `without_kind` are steps of `eval`, for evaluators of other languages.
//! Only tested: that a scratch is made where there is memory (`library_tests/src/terms.rt`); `eval`
//! takes none.
#![tactic(auto)]

mod bindings;
mod blocks;
mod comparisons;
mod evaluation;
mod heights;
mod kinds;
mod laws;
mod levels;
pub mod operations;
mod operators;
mod scratch;
mod searches;
mod stops;
mod sums;
mod trials;
mod truths;
mod values;
mod watches;

pub use bindings::{Bindings, kind_at};
pub use evaluation::{value_bound, value_found, without_kind};
pub use kinds::{kind_observed, kind_of};
pub use laws::{answers_may_be_entered, parts_may_be_evaluated};
pub use scratch::{Binding, Held, Scratch};
pub use term_model::Kind;
pub use trials::first_true;
pub use values::eval;
