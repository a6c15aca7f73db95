//! A bound on the entries of all rows that the simplex method can meet on a program, from the number of its rows and
//! the size of its numbers: where it is within a limit, no row is wide.
#![tactic(auto)]

mod bound;
mod laws;
mod power;
mod sizes;

pub use bound::bound_of;
pub use laws::narrow_law;
pub use sizes::greatest;
