//! What is observed.

/// A declared observable: a number of a scale within bounds, both mantissas at that scale, or a
/// truth value.
#[derive(Clone, Copy, Debug, PartialEq, Eq)]
pub enum Label {
    Number { scale: u8, low: i128, high: i128 },
    Flag,
}
