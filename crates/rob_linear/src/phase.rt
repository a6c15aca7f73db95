//! The start of the path, and the two phases. Chvatal, chapter 3 (the auxiliary problem).

ghost use Rattle.std.specs.Prelude.{ℕ, zero, suc, ◌+◌};
ghost use Rattle.rob_linear.specs.Vectors.{Columns, Matrix, Vector};
ghost use Rattle.rob_linear.specs.Systems.{right, RowOf, IsBasis, IsNonnegative, IsCombined, EndsUnbounded};
ghost use Rattle.rob_linear.specs.Programs.{Program, starting_row, system_of, auxiliary_of, without_auxiliary, kept_row, kept_of, EndsInfeasible};
ghost use Rattle.rob_linear.specs.Turns.{IsExchange, own_of, StandsWith};
ghost use Rattle.rob_linear.specs.Paths.{StartsAtSlacks, StartsAtAuxiliary, HasAuxiliary, Steps, Turned, Reached};

/// Each program has a start, and its rows stand in lexicographic order.
pub fn start_of_the_path()
    ensures exists { (P : Program) → (basis : Columns) × Turned P zero basis }
    ensures slacks { (P : Program) (basis : Columns) → StartsAtSlacks P basis
        → StandsWith (system_of P) basis (starting_row P) }
    ensures auxiliary { (P : Program) (basis : Columns) → StartsAtAuxiliary P basis
        → (rows : Matrix) × StandsWith (auxiliary_of P) basis rows }
    // The row of the cost, kept beside the auxiliary form's own, is that of the cost itself.
    ensures kept { (P : Program) (basis : Columns) → StartsAtAuxiliary P basis
        → RowOf (kept_of P) (own_of (kept_of P) basis) P.m (kept_row P P.m) }
{}

/// The auxiliary column: once it has left it never comes back, and at its optimum it is positive
/// where it is basic, so it never stays in the basis at value 0. The auxiliary form is never
/// unbounded.
pub fn auxiliary_column_leaves()
    ensures for_good { (P : Program) (basis next : Columns) → Reached P basis
        → ¬ (HasAuxiliary P basis) → Steps P basis next → ¬ (HasAuxiliary P next) }
    ensures positive { (P : Program) (basis : Columns) (rows : Matrix)
        → StandsWith (auxiliary_of P) basis rows → HasAuxiliary P basis
        → IsNonnegative (suc (P.n + P.m)) (rows P.m) → EndsInfeasible P rows }
    ensures bounded { (P : Program) (own : Columns) (rows : Matrix) (col : ℕ)
        → IsBasis (auxiliary_of P) own rows → ¬ (EndsUnbounded (auxiliary_of P) own rows col) }
{}

/// The kept row of the cost is turned at each pivot as the other rows are. When the auxiliary
/// column has left, the rows without it are the program's own, with the kept row as the
/// objective's.
pub fn change_of_phase()
    ensures kept { (P : Program) (own own' : Columns) (rows : Matrix) (kept new : Vector)
        (e col : ℕ)
        → IsBasis (auxiliary_of P) own rows → RowOf (kept_of P) own P.m kept
        → IsExchange (auxiliary_of P) own own' rows e col
        → IsCombined (suc (right (kept_of P))) (rows e col) kept (kept col) (rows e) new
        → RowOf (kept_of P) own' P.m new }
    ensures rows { (P : Program) (basis : Columns) (rows : Matrix) (kept : Vector)
        → StandsWith (auxiliary_of P) basis rows
        → RowOf (kept_of P) (own_of (kept_of P) basis) P.m kept → ¬ (HasAuxiliary P basis)
        → StandsWith (system_of P) basis (without_auxiliary P rows kept) }
    // Each basis of the program still has rows in the auxiliary form, and a kept row.
    ensures back { (P : Program) (basis : Columns) (rows : Matrix)
        → IsBasis (system_of P) (own_of (system_of P) basis) rows
        → (auxiliary : Matrix) × (kept : Vector)
        × IsBasis (auxiliary_of P) (own_of (auxiliary_of P) basis) auxiliary
        × RowOf (kept_of P) (own_of (kept_of P) basis) P.m kept }
{}
