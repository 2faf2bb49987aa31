//! What terms are written in, and what stands between two expressions.

use term_model::{CmpOp, LogicOp, NumOp};

/// The language whose terms are read: contracts, or payoff code. They differ in the word that reads
/// an observable, and in how many terms may be open at once.
#[derive(Clone, Copy)]
pub enum Language {
    Contracts,
    Code,
}

/// An operator between two expressions.
#[derive(Clone, Copy)]
pub enum Operator {
    Arithmetic { op: NumOp },
    Comparison { op: CmpOp },
    Logic { op: LogicOp },
}
