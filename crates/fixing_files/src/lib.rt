//! Tables of fixings: which values were observed, at which places, and on which day a text says so;
//! and curves of discount factors.
//!
//! ```text
//! let fixings = read_fixings(alloc, &bytes, &portfolio.decls)?;
//! let rate = fixings.get(0, 5); // the value of the first label on day 5, where there is one
//! ```
//!
//! Promised: `read_fixings` answers the map of what the records say, or the first record that
//! breaks a rule (`Answers`); so does `read_curve` of a curve (`AnswersCurve`).
//! Only tested: that tables are read where there is memory (rows of `library_rows`).
#![tactic(auto)]

mod blocks;
mod curve_records;
mod curve_tables;
mod curves;
mod days;
mod faults;
mod fixings;
mod folds;
mod fronts;
mod known;
mod laws;
mod layers;
mod numerals;
mod plain_rows;
mod reader;
mod records;
mod rows;
mod runs;
mod tables;
mod values;
mod words;

pub use blocks::{BLOCK_DAYS, Block, LentRun};
pub use curve_tables::read_curve;
pub use curves::Curve;
pub use days::{DayFault, NamedDay, day_of_text, place_day, read_day};
pub use faults::{RowErr, RowFault, RowKind};
pub use fixings::Fixings;
pub use known::Known;
pub use laws::{curves_have_one_answer, mantissas_are_written, tables_have_one_answer};
pub use layers::{FewFixings, LayeredFixings};
pub use reader::{MOST_READS, reader_of};
pub use records::{Place, entry_at};
pub use runs::FixedDay;
pub use tables::read_fixings;
