//! What commands share: a course, which is a row of stages and then a text; the status of each way
//! in which a run ends; what stops a command; and the stages of words and tables that many have.
//!
//! Promised: each fault has one status, and its line is the answer. What a stage here answers is
//! what it passes on, or its fault, or want of memory.
#![tactic(auto)]

mod answer;
mod days;
mod fixing_tables;
mod inputs;
mod names;
mod status;
mod stop;

pub use answer::{Answer, done, fault_answer};
pub use days::day_asked;
pub use fixing_tables::{fixings_of, stop_of};
pub use inputs::Inputs;
pub use names::{index_of, label_name};
pub use status::Status;
pub use stop::Stop;
