//! What is covered by multipliers of set rows.

use rob_cert::Cover;

/// What is covered: the plan with its bound, by the covers; or the direction with its bound, by the holds.
#[derive(Clone, Copy, Debug, PartialEq, Eq)]
pub enum Covered {
    Plan,
    Step,
}

/// A vector that the forms are taken at, and the multipliers of set rows that keep them at most 0 there.
#[derive(Clone, Copy, Debug)]
pub struct Covering<'a, N> {
    pub covered: Covered,
    /// The positive number that the forms are taken with.
    pub scale: N,
    /// What column 0 counts: 1 for a plan, 0 for a direction.
    pub first: N,
    /// A number for each decision column.
    pub columns: &'a [N],
    /// The number for `tau`.
    pub bound: N,
    /// By form, then set row.
    pub covers: &'a [Cover<N>],
}
