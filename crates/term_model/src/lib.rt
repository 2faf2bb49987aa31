//! Terms of the contract language, their declarations, and the model that says what they mean: the
//! definitions of `specs`, of which the clauses of every crate above speak. Beside it copies and
//! shifts of terms, names, dates, limits, and settings of templates.
//!
//! ```text
//! let later = shift_obs(alloc, &expr, 1)?;
//! let setting = defaults(alloc, &portfolio.decls)?;
//! ```
//!
//! Promised: a copy is equal by contents, `shift_obs` reads each observable as many days later
//! (`shifted`), and the other calls are as exact by the model; `laws` has what follows of the
//! definitions alone. Only tested: that calls succeed where there is memory (rows of
//! `library_rows`). That the definitions say what is meant no clause can say: the rows of `proofs`
//! and `docs/MODEL.md` are for that.
#![tactic(auto)]

mod copies;
mod dates;
mod days;
mod decls;
mod label;
pub mod laws;
mod limits;
mod name;
mod portfolio;
mod rules;
mod scope;
mod settings;
mod shifts;
mod terms;
mod values;

pub use copies::{nothing, payment};
pub use dates::{Ymd, date_parts, date_text, epoch_day};
pub use days::{day_read, days_earlier, days_later};
pub use decls::Decls;
pub use label::Label;
pub use limits::{
    FIRST_ORIGIN, GREATEST_DATE_NUMBER, GREATEST_OFFSET, LAST_CURVE_OFFSET, LAST_FIXED_DAY,
    LAST_ORIGIN, LAST_START, LONGEST_FILE, LONGEST_NAME, MOST_COUNTED, MOST_DAYS, MOST_HEIGHT,
    MOST_HEIGHT_OF_CODE, MOST_NODES, MOST_NODES_OF_CODE, MOST_REACH_AND_PAST, MOST_WORK,
};
pub use name::Name;
pub use portfolio::Portfolio;
pub use rules::{CheckErr, Rule, RuleFault};
pub use scope::{Scope, held_at};
pub use settings::{Setting, defaults};
pub use shifts::shift_obs;
pub use terms::{CmpOp, Contr, DaySum, Days, Expr, LogicOp, NumOp};
pub use values::{Kind, Missing, Value};
