//! How large a model may be.

/// The joint parameters that a model may have.
pub const MOST_PARAMETERS: u64 = 96;

/// The named sets that a model may have.
pub const MOST_SETS: u64 = 8;

/// The decision columns that a model may have.
pub const MOST_COLUMNS: u64 = 600;

/// The row statements that a model may have.
pub const MOST_ROWS: u64 = 300;

/// The set statements and budgets that a model may have together.
pub const MOST_SET_LINES: u64 = 64;

/// The members that all budgets may have together.
pub const MOST_MEMBERS: u64 = 64;

/// The size that a model may have: its forms times one more than its set rows, joint parameters and members, the last
/// two counted twice.
pub const GREATEST_SIZE: u64 = 12_000;
