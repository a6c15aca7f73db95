//! What the bound is for.

ghost use Rattle.std.specs.Prelude.{ℕ, ◌≤◌, length};
ghost use Rattle.rob_linear.specs.Vectors.{Columns};
ghost use Rattle.rob_linear.specs.WideRows.{HasWideRow};
ghost use Rattle.rob_bounds.specs.Bounds.{IsNarrow, row_bound};
ghost use Rattle.rob_rows.specs.declared.program.Lp.{Lp};
ghost use Rattle.rob_rows.specs.LinearPrograms.{program_of};
ghost use Rattle.rob_narrow.specs.NarrowPrograms.{IsGreatest};

/// Where the bound is within the limit, no row on the program's path is wide. It does nothing, and its clauses are the
/// claim.
pub fn narrow_law()
    ensures narrow { (lp : Lp) (a limit : ℕ) → IsGreatest a lp → row_bound (length lp.b) a ≤ limit
        → IsNarrow limit (program_of lp) }
    ensures path { (lp : Lp) (a limit : ℕ) → IsGreatest a lp → row_bound (length lp.b) a ≤ limit
        → (basis : Columns) (i : ℕ) → ¬ (HasWideRow limit (program_of lp) basis i) }
{}
