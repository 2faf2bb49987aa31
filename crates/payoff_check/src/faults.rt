//! What stops the trial of a rule on payoff code.

/// The number of the first node at fault, or want of memory for an undated expression.
#[derive(Clone, Copy)]
pub enum Fault {
    At { node: u32 },
    NoMemory,
}
