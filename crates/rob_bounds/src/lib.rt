//! How large the numbers in the rows of a basis can be, by the size of the program's numbers.
//!
//! It has no code: the definitions stand in specs/, and each module here states laws of theirs, as
//! clauses of functions that do nothing.
#![tactic(auto)]

/// One value at two numbers; small solutions of equations.
pub mod counting;
/// The entries of the rows of a basis.
pub mod rows;
/// Programs so small that none of their rows is ever wide.
pub mod narrow;
