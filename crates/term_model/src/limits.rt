//! The limits of the language. `specs/Limits.antt` has those that clauses name, under the same names.

/// The last day on which contracts may stand, as declared or after an advance.
pub const LAST_START: u32 = 1_000_000;

/// The greatest day count, the greatest number of a template, and the greatest reach of a contract.
pub const MOST_DAYS: u32 = 100_000;

/// The greatest offset of an observable. The least is its opposite.
pub const GREATEST_OFFSET: i32 = 1_000_000;

/// The first epoch day that may be day 0, 1900-01-01.
pub const FIRST_ORIGIN: i64 = -25_567;

/// The last epoch day that may be day 0, 2999-12-31.
pub const LAST_ORIGIN: i64 = 376_199;

/// The last day that may be fixed. The first is its opposite.
pub const LAST_FIXED_DAY: i64 = 3_000_000;

/// The greatest offset of a curve.
pub const LAST_CURVE_OFFSET: u32 = 2_000_000;

/// The bytes of the longest file.
pub const LONGEST_FILE: u64 = 16_777_216;

/// The bytes of the longest name.
pub const LONGEST_NAME: usize = 64;

/// The greatest number that a date of payoff code may have. The least is its opposite.
pub const GREATEST_DATE_NUMBER: i32 = 2_000_000;

/// A greater height, or a greater number of nodes, is counted as this one.
pub const MOST_COUNTED: u32 = 1_000_000;

/// The most nodes of a contract.
pub const MOST_NODES: u32 = 100_000;

/// The most nodes of payoff code.
pub const MOST_NODES_OF_CODE: u32 = 200_000;

/// The most days that a contract may reach into the days to come and into the past together.
pub const MOST_REACH_AND_PAST: u32 = 1_000_000;

/// The most steps in which a contract, or code, may be evaluated.
pub const MOST_WORK: u32 = 10_000_000;

/// The greatest height of a contract, and the greatest depth of its text.
pub const MOST_HEIGHT: u32 = 200;

/// The greatest height of code, and the greatest depth of its text.
pub const MOST_HEIGHT_OF_CODE: u32 = 400;
