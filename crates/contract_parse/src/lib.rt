//! Portfolios from their texts: tokens, the grammar of declarations and contracts, and the first
//! fault of a text that is none. Payoff code is read with the same readers. A cursor lends tokens
//! and declarations to whoever embeds them in a grammar of their own.
//!
//! ```text
//! let portfolio = parse_portfolio(alloc, &bytes)?; // of at most 16,777,216 bytes
//!
//! let (decls, mut reader) = start_contracts(alloc, &bytes)?; // the same a contract at a time
//! while let Some(next) = next_contract(alloc, &decls, &mut reader)? { .. }
//! ```
//!
//! Promised: `parse_portfolio` answers the portfolio exactly where the bytes are a text of it, and
//! else the first fault (`Answers`). `start_contracts` and `next_contract` answer its contracts one
//! by one, or the same fault (`GoesOn`). A text stands for one portfolio (`laws`).
//! Only tested: that a text is read where there is memory (rows of `library_rows`).
#![tactic(auto)]

mod at_once;
mod contrs;
mod cursor;
mod days;
mod decls;
mod exprs;
mod faults;
mod frame;
mod heads;
mod judges;
mod labels;
pub mod laws;
mod leaves;
mod lines;
mod names;
mod next_contracts;
mod portfolio;
mod readers;
mod short_texts;
mod token;
mod tokens;
mod words;

pub use contract_grammar::{TextFault, TextKind, is_name_text};
pub use cursor::{Cursor, next_token, parse_decls, start_text};
pub use faults::ParseErr;
pub use next_contracts::{
    ContractReader, NextContract, next_contract, parse_portfolio, start_contracts,
};
pub use tokens::{Token, TokenKind};

// What another grammar over the same tokens and expressions is read with.
pub use contract_grammar::{Language, LexemeKind};
pub use decls::read_decls;
pub use exprs::read_expr;
pub use faults::{PartErr, Refusal};
pub use frame::Frame;
pub use heads::{AmountHead, amount_head_at};
pub use judges::{integer_at, literal_at, refuse};
pub use leaves::LeafReader;
pub use lines::fault_at;
pub use names::index_in_map;
pub use readers::{
    after_mark, after_word, read_binder, read_date_number, read_end, read_integer, read_literal,
    read_mode, read_new_name, read_use_behind, read_use_of_map, read_use_of_set, skip_mark,
    skip_version, skip_word,
};
pub use token::Lexeme;
pub use words::{Lookahead, is_name, is_the_mark, look, next};
