//! The three endings of a linear program.

/// How a linear program ends: with a best point, with no point, or with points as good as anyone asks for.
#[derive(Debug, PartialEq, Eq, Clone, Copy)]
pub enum LpKind {
    /// A feasible point is the best of all.
    Optimal,
    /// No point is feasible.
    Infeasible,
    /// The objective has no bound over the feasible points.
    Unbounded,
}
