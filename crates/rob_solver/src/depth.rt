//! Solvers by the width of their rows.

use rob_number::Exact;
use rob_simplex::Work;

/// A solver, by the width of its rows.
pub enum Depth<N: Exact> {
    /// Rows of up to 62 bits.
    Narrow(Work<N, i64>),
    /// Rows of up to 126 bits.
    Deep(Work<N, i128>),
}

impl<N: Exact> Drop for Depth<N> {
    /// Lets go of the rows. A derived drop would stand with all their lists in each function that lets go of a solver.
    fn drop(self) {
        match self {
            Depth::Narrow(_work) => {}
            Depth::Deep(_work) => {}
        }
    }
}
