//! What is found of the ranges and the indices of a line in a setting.

/// What is found, the worst last.
#[derive(Clone, Copy)]
pub enum Finding {
    Nothing,
    /// An index is below 0 or over 999.
    Out,
    /// A range has more than 100 values.
    TooLong,
}
