//! The grammar of texts as it is defined: the tokens of bytes, which tokens spell which term, line
//! and portfolio, and which bytes are a text of which portfolio. What reads texts, and what writes
//! them, stands above.
//!
//! ```text
//! let free = is_name_text(b"usd"); // a word that is not reserved
//! ```
//!
//! Promised: `is_name_text` says which texts can be names. What is a text of a portfolio (`Text`)
//! holds no more than its bytes allow, and names only what it declares (`laws`).
#![tactic(auto)]

mod faults;
pub mod laws;
mod name_texts;
mod names;
mod reserved;
mod terms;
mod token;

pub use faults::{TextFault, TextKind};
pub use name_texts::is_name_text;
pub use names::NameSet;
pub use reserved::is_reserved;
pub use terms::{Language, Operator};
pub use token::{Extent, LexemeKind, is_letter, is_word_byte};
