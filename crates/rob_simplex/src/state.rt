//! What a solver has answered.

/// Where a solver stands.
#[derive(Debug, PartialEq, Eq, Clone, Copy)]
pub enum State {
    /// It has not solved yet.
    New,
    /// It has a best point.
    Optimal,
    /// It has weights that show that no point is feasible.
    Infeasible,
    /// It has a feasible point, and a ray along which this column grows.
    Unbounded(usize),
    /// A row, or a number that is told, was wide.
    Stopped(Cause),
}

/// What a path stopped at.
#[derive(Debug, PartialEq, Eq, Clone, Copy)]
pub enum Cause {
    /// The last basis tells a number that is wide.
    Told,
    /// A turn of the second phase: the pivot of the row of this position was begun.
    Turn(usize),
    /// The first phase, in the explicit form: a row is wide there, and nothing goes on.
    First,
    /// A new cost, or the end of a turn that was begun, from which nothing goes on.
    Elsewhere,
}

/// Where a path stopped: the position whose row is wide, or tells a number that is, and at what.
#[derive(Debug, PartialEq, Eq, Clone, Copy)]
pub struct Halt {
    pub position: usize,
    pub cause: Cause,
}

/// Why `solve` or `resume` stopped.
#[derive(Debug, PartialEq, Eq, Clone, Copy)]
pub enum LpStop {
    /// A row of this position, for the basis that is then told, or at the objective's a stage, has a number over the
    /// limit. Positions count the rows from 0; the objective's is behind the last row.
    Wide(u32),
}
