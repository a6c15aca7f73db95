//! The cases that are timed.

/// Two factors, and what the rows are drawn from.
#[derive(Clone, Copy)]
pub struct Case {
    pub p: i64,
    pub q: i64,
    /// The numbers drawn are from 0 up to this, and not this.
    pub size: u64,
    /// Each entry is a number drawn times this.
    pub multiple: i64,
    /// How many of 100 entries are 0.
    pub zeros: u64,
}

/// Small numbers with no divisor and with one; sparse rows; numbers of 30 bits; products of more than 64 bits with a
/// divisor of 31; and results of 60 bits.
#[rattlefmt::skip]
pub const CASES: [Case; 6] = [
    Case { p: 12_345,        q: 67_892,        size: 1 << 20, multiple: 1,             zeros: 0 },
    Case { p: 12_345,        q: 67_892,        size: 1 << 20, multiple: 35,            zeros: 0 },
    Case { p: 12_345,        q: 67_892,        size: 1 << 20, multiple: 6,             zeros: 70 },
    Case { p: 123_456_789,   q: 1_234_567_891, size: 1 << 30, multiple: 1,             zeros: 0 },
    Case { p: 1_234_567,     q: 1_234_568,     size: 1 << 30, multiple: 1_234_567_891, zeros: 0 },
    Case { p: 4_294_967_311, q: 2_147_483_659, size: 1 << 28, multiple: 1,             zeros: 0 },
];
