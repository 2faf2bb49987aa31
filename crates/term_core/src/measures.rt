//! What is counted of a term.

/// The height and the number of nodes of a term; a greater number than 1,000,000 is given as
/// 1,000,000.
#[derive(Clone, Copy, Debug, PartialEq, Eq)]
pub struct Counts {
    pub height: u32,
    pub nodes: u32,
}
