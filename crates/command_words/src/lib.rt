//! What the words of the command line ask for: each command is declared by its arguments, and the
//! words mean what the crate `clap` states of them.
//!
//! ```text
//! let request = request_of(alloc, &["flows", "loan.txt", "--until", "90"])?;
//! ```
//!
//! Promised: `request_of` answers the command that the words ask for with its arguments, or that
//! they are of no form (`IsRequestOf`).
//! Only tested: that it answers where there is memory (rows of `run_rows`).
#![tactic(auto)]

mod advance_words;
mod arguments;
mod day_words;
mod forms;
mod netting_words;
mod sample_size;
mod scenario_words;
mod value_asked;
mod value_words;
mod words;

pub use arguments::WordsErr;
pub use day_words::DayWord;
pub use sample_size::SampleSize;
pub use value_asked::{Between, Value, ValueFiles};
pub use words::{
    Advance, Flows, Netting, Novate, Payoff, Request, Scenarios, files_of, request_of,
};
