//! A run of one command: it reads the named files, has the command answer to their bytes, and
//! writes the answer.
//!
//! ```text
//! let status = run(alloc, &words, &mut files, &mut out);
//! ```
//!
//! Promised: each status of `run` has its cause and its text (`Meets`), and what each command
//! writes means what the written rules and the model say (`Headline`); `laws` has when each status
//! comes, the causes of each, and what two runs say together.
//! Only tested: that each file is read once and in order.
#![tactic(auto)]

mod command;
pub mod laws;
mod reading;

pub use command::run;
pub use command_courses::Status;
