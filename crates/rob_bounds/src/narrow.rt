//! Programs so small that none of their rows is ever wide.

ghost use Rattle.std.specs.Prelude.{◌≡◌, ℕ, suc, ◌+◌, ◌<◌, ◌≤◌, Some, None};
ghost use Rattle.std.specs.Int.RustNames.{unsigned_abs};
ghost use Rattle.rob_linear.specs.Vectors.{Columns, Matrix, Vector};
ghost use Rattle.rob_linear.specs.Systems.{IsBasis};
ghost use Rattle.rob_linear.specs.Programs.{Program, system_of, auxiliary_of, kept_of};
ghost use Rattle.rob_linear.specs.Stages.{IsStage, IsHalfStage};
ghost use Rattle.rob_linear.specs.WideRows.{HasWideRow, HasWideRowFrom};
ghost use Rattle.rob_bounds.specs.Bounds.{IsOfSize, StartsWithin, IsNarrow, row_bound, bound_within};

/// The starting rows of a program and of its auxiliary form, with either objective, are no larger
/// than the program's numbers, or 1.
pub fn starting_rows()
    ensures program { (a : ℕ) (P : Program) → 0 < a → IsOfSize a P → StartsWithin a (system_of P) }
    ensures auxiliary { (a : ℕ) (P : Program) → 0 < a → IsOfSize a P
        → StartsWithin a (auxiliary_of P) }
    ensures kept { (a : ℕ) (P : Program) → 0 < a → IsOfSize a P → StartsWithin a (kept_of P) }
{}

/// The bound holds for the stages of the objective's row too, and between stages.
pub fn stages()
    ensures stage { (a : ℕ) (P : Program) → 0 < a → IsOfSize a P → (own : Columns) (rows : Matrix)
        → IsBasis (system_of P) own rows → (j : ℕ) (r : Vector) → IsStage P own j r
        → (k : ℕ) → k ≤ suc (P.n + P.m) → unsigned_abs (r k) ≤ row_bound P.m a }
    ensures between { (a : ℕ) (P : Program) → 0 < a → IsOfSize a P
        → (own : Columns) (rows : Matrix)
        → IsBasis (system_of P) own rows → (j : ℕ) (r : Vector) → j < P.n → IsHalfStage P own j r
        → (k : ℕ) → k ≤ suc (P.n + P.m) → unsigned_abs (r k) ≤ row_bound P.m a }
{}

/// With m rows and numbers of size a, where ((m + 1) * a) ^ (m + 1) is at most the limit, no row on
/// the path is wide.
pub fn narrow_programs()
    ensures path { (limit : ℕ) (P : Program) → IsNarrow limit P → (basis : Columns) (i : ℕ)
        → ¬ (HasWideRow limit P basis i) }
    ensures path_from { (limit : ℕ) (P : Program) → IsNarrow limit P
        → (start basis : Columns) (i : ℕ) → ¬ (HasWideRowFrom limit P start basis i) }
{}

/// The bound, made factor by factor: it is found exactly where it is not over the limit.
pub fn bounds_within_a_limit()
    ensures found { (limit m a : ℕ) → 0 < a → row_bound m a ≤ limit
        → bound_within limit m a ≡ Some (row_bound m a) }
    ensures over { (limit m a : ℕ) → 0 < a → limit < row_bound m a → bound_within limit m a ≡ None }
{}
