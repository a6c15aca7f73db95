//! A solver of one linear program over rows of either depth: narrow rows first, and deep ones where those stop.
#![tactic(auto)]

mod depth;
mod solver;
mod solving;

pub use depth::Depth;
pub use solver::Solver;
pub use solving::{Solved, Stopped, solve};
