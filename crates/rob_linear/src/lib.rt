//! Linear programs in whole numbers: bases and their rows, pivots, the path of the simplex method,
//! duality. No function here does anything: each one's clauses are the theorems of its subject, and
//! its body is empty. Chvatal, Linear Programming (1983), chapters 2, 3, 5, 8.

#![tactic(auto)]

/// Rows of a basis: each position has one.
pub mod basis;
/// Pivots and turns, the lexicographic rule, and the rank that rises.
pub mod pivot;
/// The three endings, and what they say of the program.
pub mod ending;
/// Duality, for points of fractions.
pub mod duality;
/// The path of bases of a program, through both phases.
pub mod path;
/// The start, the auxiliary column, and the change of phase.
pub mod phase;
/// The objective's row made column by column, and rows that are too wide.
pub mod stage;
/// Rows up to positive factors.
pub mod multiple;
/// The first phase with the auxiliary column kept out of the table's basis.
pub mod first_phase;
/// Rows without the columns of the basis.
pub mod condensed;
