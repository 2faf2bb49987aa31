//! What each command answers to the bytes of its files: a status and a text, or the fault that
//! stops it.
//!
//! ```text
//! // the bytes of the files that the request names, in order
//! let answer = answer_request(alloc, &request, Inputs { files: &files })?;
//! ```
//!
//! Promised: a command has a course, which is a row of stages and then a text (`course_of`). What
//! is answered is what is told at the end of the course, or the fault of the first stage that stops
//! it; and a fault's answer is its line with its status.
//! Only tested: that it answers where there is memory.
#![tactic(auto)]

mod answers;

pub use answers::answer_request;
