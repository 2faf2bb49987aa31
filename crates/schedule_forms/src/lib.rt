//! Schedules: plans of payments at regular days, and the contracts that they are written for.
//!
//! ```text
//! let file = parse_plans(alloc, &bytes)?; // the schedule file of a text, or its first fault
//! let contr = expand(alloc, &plan)?; // of a plan within its limits
//! ```
//!
//! Promised: `parse_plans` answers the schedule file that a text stands for, or the first fault of
//! bytes that are none (`PlanAnswers`), and its plans may be expanded; `expand` answers the
//! expansion of a plan (`expansion`), which is small and closed and pays what the plan says
//! (`IsWrittenFor`, and the laws of `laws`).
//! Only tested: that they answer where there is memory.
#![tactic(auto)]

mod definitions;
mod expanding;
mod heads;
mod judges;
pub mod laws;
mod lines;
mod parsing;
mod plan_file;
mod plans;
mod readers;

pub use expanding::expand;
pub use parsing::parse_plans;
pub use plan_file::PlanFile;
pub use plans::{Leg, Plan, Size};
