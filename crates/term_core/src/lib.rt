//! What is made of the terms of `term_model` and asked of them: contracts at the numbers of a
//! setting, contracts whose parts are shared, whether a contract is closed, how large a term is, and
//! which node of a part is at fault. The types, their declarations and the model are passed on.
//!
//! ```text
//! let setting = defaults(alloc, &portfolio.decls)?;
//! let contr = instantiate(alloc, &portfolio.contracts[0], &setting)?;
//! ```
//!
//! Promised: `instantiate` puts a setting's numbers for the names of templates (`instance`), and
//! the other calls are as exact by the model.
//! Only tested: that calls succeed where there is memory (rows of `library_rows`).
#![tactic(auto)]

mod closed;
mod instances;
mod measures;
mod nodes;
mod shared;
mod sharing;
mod sizes;
mod trying;

pub use closed::{has_only_numbers, is_closed};
pub use instances::instantiate;
pub use measures::Counts;
pub use nodes::{nodes_in, nodes_in_contract};
pub use shared::SharedContr;
pub use sharing::{share, unshare};
pub use sizes::counts;
pub use term_model::{
    CheckErr, CmpOp, Contr, DaySum, Days, Decls, Expr, FIRST_ORIGIN, GREATEST_DATE_NUMBER,
    GREATEST_OFFSET, Kind, LAST_CURVE_OFFSET, LAST_FIXED_DAY, LAST_ORIGIN, LAST_START,
    LONGEST_FILE, LONGEST_NAME, Label, LogicOp, MOST_COUNTED, MOST_DAYS, MOST_HEIGHT,
    MOST_HEIGHT_OF_CODE, MOST_NODES, MOST_NODES_OF_CODE, MOST_REACH_AND_PAST, MOST_WORK, Missing,
    Name, NumOp, Portfolio, Rule, RuleFault, Scope, Setting, Value, Ymd, date_parts, date_text,
    day_read, days_earlier, days_later, defaults, epoch_day, held_at, laws, shift_obs,
};
pub use trying::{behind, behind_both, behind_contract, behind_node, behind_two};
