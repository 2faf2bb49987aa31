//! Frames.

/// The day on which a term stands, where it is known.
#[derive(Clone, Copy, Debug, PartialEq, Eq)]
pub enum Frame {
    Day { day: i64 },
    Unknown,
}
