//! The public calls of the libraries that no command makes, or that a command makes on other data,
//! as rows of data. The program `run_rows` reads rows from its standard input, and `make_call`
//! answers each line that is such a call. The gate compares what is printed byte for byte. What a
//! row must print comes from the written rules, and never from the program's own output.
//!
//! ```text
//! == both parts pay nothing
//! file c = header
//! | contract c = both(zero, scale(0.0, pay(EUR, A, B)));
//! | contract left = zero;
//! simplify|c
//! ```
//!
//! prints, with `text header` and its declarations above it,
//!
//! ```text
//! == both parts pay nothing
//! simplify|c
//! | as wanted
//! ```
//!
//! Rows, texts, files and pieces are those of `row_language`. A further line is one of these calls.
//! BOOK is a file with a portfolio: the call is on its first contract, and what it has to make is
//! the last one. CODE is a file with payoff code, TABLE one with fixings.
//!
//! - `check|BOOK`: what the five rules answer, one after another, or the first that is broken: the
//!   start, the scale, the reach and the total; and then what the check of all answers
//! - `counts|BOOK`: the height, and the number of nodes
//! - `rename|BOOK`: the contract with the second party in the place of the first
//! - `simplify|BOOK`: the contract without the redexes that ask for no day
//! - `eval|BOOK|TABLE|DAY`: the value of the factor of the first `scale` behind the names that are
//!   bound round it, or the first place that is not fixed; or that there is none
//! - `specialise_contr|BOOK|TABLE|DAY`: the contract with what is fixed told
//! - `specialise_expr|BOOK|TABLE|DAY`: the expression that it binds or tests, with what is fixed
//!   told; `specialise_unknown` has no day, whatever stands for it
//! - `step|BOOK|TABLE|DAY`: what is due on a day, and what is left on the next
//! - `carry|BOOK|TABLE|DAY`: whether nothing is left on the next, over shared parts
//! - `advance|BOOK|TABLE|DAYS`: what is due on so many days, and what is left behind them
//! - `compile|BOOK|CODE`: the code of the contract
//! - `cut|CODE|CODE`: the cut of the first code
//! - `value_scratch|CODE`: that there is room for its names
//! - `print_portfolio|BOOK`, `print_decls|BOOK`: the canonical text of the portfolio, or its first
//!   fault; the canonical lines of its declarations
//! - `parse_decls|FILE|VERSION|BEFORE|BEHIND`: so many tokens of a text, the declarations of a
//!   version behind them, and so many tokens behind those
//! - `fixings|CODE|SCENARIOS|PLACE`: what is fixed in a scenario of a table, by its place, for each
//!   label that the code declares
//!
//! Any other line is an error, which the program says with the line's number.
//!
//! It is a library, and no program of its own: a program links all that it stands on, and looks at
//! it once for its proof and once for each compiler.
//!
//! Promised: nothing to other crates.
//! Only tested: all that the rows try.
#![tactic(auto)]

mod calls;
mod codes;
mod contracts;
mod days;
mod evaluating;
mod files;
mod residuals;
mod texts;
mod tokens;
mod words;

pub use calls::make_call;
