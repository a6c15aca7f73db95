//! The objective's row made column by column, paths of other costs, and rows that are too wide.

ghost use Rattle.std.specs.Prelude.{◌≡◌, ◌≢◌, ℕ, zero, suc, ◌+◌, ◌<◌, ◌≤◌, pos, ◌⊎◌};
ghost use Rattle.rob_linear.specs.Vectors.{Columns, Matrix, Vector};
ghost use Rattle.rob_linear.specs.Systems.{System, RowOf, IsBasis, IsCombined, with_objective};
ghost use Rattle.rob_linear.specs.Programs.{Program, with_cost, system_of, auxiliary_of, kept_of};
ghost use Rattle.rob_linear.specs.Turns.{own_of, StandsWith};
ghost use Rattle.rob_linear.specs.Stages.{IsStage, unit_row, IsHalfStage};
ghost use Rattle.rob_linear.specs.Paths.{HasAuxiliary, Reached, ReachedFrom};
ghost use Rattle.rob_linear.specs.WideRows.{HasWideEntry, IsWideIn, IsWideStage, NeedsAuxiliary, IsWideAt, HasWideRow, HasWideRowFrom};

/// At a basis, whatever the cost d was, each stage of the objective's row is one row: stage 0 is 1
/// for the objective alone, the last stage is the row itself.
pub fn stages()
    ensures first { (P : Program) (own : Columns) (rows : Matrix) (d : Vector)
        → IsBasis (system_of (with_cost P d)) own rows → IsStage P own zero (unit_row (P.n + P.m)) }
    ensures last { (P : Program) (own : Columns) (r : Vector) → IsStage P own P.n r
        → RowOf (system_of P) own P.m r }
    ensures one { (P : Program) (own : Columns) (rows : Matrix) (d : Vector) (j : ℕ) (r r' : Vector)
        → IsBasis (system_of (with_cost P d)) own rows → IsStage P own j r → IsStage P own j r'
        → (k : ℕ) → k ≤ suc (P.n + P.m) → r k ≡ r' k }
    ensures one_between { (P : Program) (own : Columns) (rows : Matrix) (d : Vector) (j : ℕ)
        (r r' : Vector)
        → IsBasis (system_of (with_cost P d)) own rows → IsHalfStage P own j r
        → IsHalfStage P own j r' → (k : ℕ) → k ≤ suc (P.n + P.m) → r k ≡ r' k }
{}

/// The stage between two is the next where its column isn't basic. Where it is, the row of that
/// column's position clears it.
pub fn next_stage()
    ensures not_basic { (P : Program) (own : Columns) (rows : Matrix) (d : Vector) (j : ℕ)
        (r : Vector)
        → IsBasis (system_of (with_cost P d)) own rows → j < P.n → ((i : ℕ) → i < P.m → j ≢ own i)
        → IsHalfStage P own j r → IsStage P own (suc j) r }
    ensures basic { (P : Program) (own : Columns) (rows : Matrix) (d : Vector) (j i : ℕ)
        (r new : Vector)
        → IsBasis (system_of (with_cost P d)) own rows → j < P.n → i < P.m → own i ≡ j
        → IsHalfStage P own j r
        → IsCombined (suc (suc (P.n + P.m))) (rows i (own i)) r (r (own i)) (rows i) new
        → IsStage P own (suc j) new }
{}

/// The objective's row of a new cost, put on a basis that stands, makes its rows those of the
/// program with that cost.
pub fn new_cost()
    ensures stands { (P : Program) (basis : Columns) (rows : Matrix) (c r : Vector)
        → StandsWith (system_of P) basis rows
        → RowOf (system_of (with_cost P c)) (own_of (system_of P) basis) P.m r
        → StandsWith (system_of (with_cost P c)) basis (with_objective P.m rows r) }
{}

/// A basis where the path of a cost of zeros has left the auxiliary form is on the path of every
/// cost, and so is what turns of that cost reach from it.
pub fn other_costs()
    ensures reached { (P : Program) (d : Vector) (start basis : Columns)
        → ((j : ℕ) → j < P.n → d j ≡ pos 0) → Reached (with_cost P d) start
        → ¬ (HasAuxiliary P start) → ReachedFrom P start basis → Reached P basis }
    ensures wide { (limit : ℕ) (P : Program) (d : Vector) (start basis : Columns) (i : ℕ)
        → ((j : ℕ) → j < P.n → d j ≡ pos 0) → Reached (with_cost P d) start
        → ¬ (HasAuxiliary P start)
        → HasWideRowFrom limit P start basis i → HasWideRow limit P basis i }
{}

/// A position has one row, so it is wide where the rows at hand show it, and only there.
pub fn wide_rows()
    ensures shown { (limit : ℕ) (S : System) (basis : Columns) (rows : Matrix) (i : ℕ)
        → IsBasis S (own_of S basis) rows → i ≤ S.m → HasWideEntry limit S (rows i)
        → IsWideIn limit S basis i }
    ensures only { (limit : ℕ) (S : System) (basis : Columns) (rows : Matrix) (i : ℕ)
        → IsBasis S (own_of S basis) rows → i ≤ S.m → IsWideIn limit S basis i
        → HasWideEntry limit S (rows i) }
    // The rows at hand at a basis on the path: those of the auxiliary form with the kept row of the
    // cost, and, where the auxiliary column isn't basic, the program's own.
    ensures at_hand { (P : Program) (basis : Columns) → Reached P basis
        → (auxiliary : Matrix) × (kept : Vector)
        × IsBasis (auxiliary_of P) (own_of (auxiliary_of P) basis) auxiliary
        × RowOf (kept_of P) (own_of (kept_of P) basis) P.m kept
        × (HasAuxiliary P basis
        ⊎ ((rows : Matrix) × IsBasis (system_of P) (own_of (system_of P) basis) rows)) }
    // Where the auxiliary column is basic, nothing is wide but a row of the auxiliary form or the
    // kept row of the cost.
    ensures first_phase { (limit : ℕ) (P : Program) (basis : Columns) (rows : Matrix)
        (kept : Vector) (i : ℕ)
        → HasAuxiliary P basis → IsBasis (auxiliary_of P) (own_of (auxiliary_of P) basis) rows
        → RowOf (kept_of P) (own_of (kept_of P) basis) P.m kept → IsWideAt limit P basis i
        → HasWideEntry limit (auxiliary_of P) (rows i)
        ⊎ ((i ≡ P.m) × HasWideEntry limit (kept_of P) kept) }
    // Where it isn't, nothing but the program's own row, a stage, and, where some right side is
    // negative, those two.
    ensures second_phase { (limit : ℕ) (P : Program) (basis : Columns) (rows auxiliary : Matrix)
        (kept : Vector) (i : ℕ)
        → IsBasis (system_of P) (own_of (system_of P) basis) rows
        → IsBasis (auxiliary_of P) (own_of (auxiliary_of P) basis) auxiliary
        → RowOf (kept_of P) (own_of (kept_of P) basis) P.m kept → IsWideAt limit P basis i
        → HasWideEntry limit (system_of P) (rows i) ⊎ (((i ≡ P.m) × IsWideStage limit P basis)
        ⊎ (NeedsAuxiliary P × (HasWideEntry limit (auxiliary_of P) (auxiliary i)
        ⊎ ((i ≡ P.m) × HasWideEntry limit (kept_of P) kept)))) }
{}
