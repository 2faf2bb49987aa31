//! The rules of acceptance, and how a term breaks one.

/// A rule of acceptance. They are tried in this order.
#[derive(Clone, Copy, Debug, PartialEq, Eq)]
pub enum Rule {
    Sort,
    Time,
    Scale,
    Size,
    Bound,
}

/// The rule that fails, and the first node at which it does.
#[derive(Clone, Copy, Debug, PartialEq, Eq)]
pub struct RuleFault {
    pub rule: Rule,
    pub node: u32,
}

/// Why a term is not accepted, or want of memory.
#[derive(Clone, Copy, Debug, PartialEq, Eq)]
pub enum CheckErr {
    Refused { rule: Rule, node: u32 },
    NoMemory,
}
