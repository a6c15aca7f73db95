//! The entries of the rows of a basis. The amounts of the starting rows in a row solve equations,
//! one for each basic column of another position.

ghost use Rattle.std.specs.Prelude.{ℕ, suc, ◌*◌, ◌^◌, ◌<◌, ◌≤◌};
ghost use Rattle.std.specs.Int.RustNames.{unsigned_abs};
ghost use Rattle.rob_linear.specs.Vectors.{Columns, Matrix};
ghost use Rattle.rob_linear.specs.Systems.{System, right, IsTagged, IsBasis};
ghost use Rattle.rob_bounds.specs.Bounds.{StartsWithin, row_bound};

/// With m rows and starting rows of size a: each entry of each row is at most
/// ((m + 1) * a) ^ (m + 1) in size, one of a position before m at most (m * a) ^ m, and the
/// objective's row takes each starting row at most ((m + 1) * a) ^ m times.
pub fn rows_of_a_basis()
    ensures rows { (S : System) (own : Columns) (rows : Matrix) (a : ℕ) → IsTagged S
        → IsBasis S own rows → 0 < a → StartsWithin a S → (i : ℕ) → i ≤ S.m
        → (k : ℕ) → k ≤ right S → unsigned_abs (rows i k) ≤ row_bound S.m a }
    ensures before { (S : System) (own : Columns) (rows : Matrix) (a : ℕ) → IsTagged S
        → IsBasis S own rows → 0 < a → StartsWithin a S → (i : ℕ) → i < S.m
        → (k : ℕ) → k ≤ right S → unsigned_abs (rows i k) ≤ (S.m * a) ^ S.m }
    ensures amounts { (S : System) (own : Columns) (rows : Matrix) (a : ℕ) → IsTagged S
        → IsBasis S own rows → 0 < a → StartsWithin a S → (t : ℕ) → t ≤ S.m
        → unsigned_abs (rows S.m (S.tag t)) ≤ (suc S.m * a) ^ S.m }
{}
