//! Sets of scenarios: tables of fixings under names, the value of payoff code in each scenario, and
//! the total, the mean, the least and the greatest of these values.
//!
//! ```text
//! let set = read_scenarios(alloc, &bytes, &file.decls)?;
//! let totals = totals(alloc, &file, &setting, bound, &set, &curve, at, from, to, asset)?;
//! total_lines(alloc, &mut out, &set, &totals, Mode::HalfEven, scale)?;
//! ```
//!
//! Promised: `read_scenarios` answers the scenarios of a table, or the first record that breaks a
//! rule (`AnswersScenarios`); `totals` what the code is worth in each of them, their total, and the
//! first of the least and of the greatest, or why there is none (`AnswersTotals`); `mean` the total
//! over the count, rounded once; `total_lines` the text of all that (`total_text`). Not promised:
//! that tables are read and totals found where there is memory. The rows of `run_rows` show calls
//! that do.
#![tactic(auto)]

mod drafts;
pub mod laws;
mod line_parts;
mod lines;
mod means;
mod mentions;
mod numbers;
mod outcomes;
mod records;
mod rising;
mod scenarios;
mod settling;
mod sums;
mod surveys;
mod tables;
mod watches;

pub use lines::total_lines;
pub use means::mean;
pub use outcomes::{Totals, TotalsErr};
pub use scenarios::Scenarios;
pub use sums::totals;
pub use tables::read_scenarios;
