//! Whole-number variables by branch and bound, and the price of robustness: definitions and laws,
//! over fractions of any size.
//!
//! It has no code: the definitions stand in specs/, and each module here states laws of theirs, as
//! clauses of functions that do nothing.
#![tactic(auto)]

/// Floors and ceilings.
pub mod whole_numbers;
/// The three statuses over plans with whole numbers.
pub mod whole_status;
/// Models with tightened bounds.
pub mod boxes;
/// Which named variables may be whole.
pub mod rules;
/// What a branch tree shows.
pub mod trees;
/// How a tree grows, and that it ends.
pub mod growing;
/// One model at several budgets.
pub mod sweeps;
