//! Duality, and the fundamental theorem of linear programming. Chvatal, chapters 3, 5 and 9.

ghost use Rattle.std.specs.Prelude.{◌≡◌, ℕ, ◌⊎◌};
ghost use Rattle.rob_algebra.specs.Fraction.{Fraction, ◌≤ℚ◌};
ghost use Rattle.rob_linear.specs.Vectors.{Vector};
ghost use Rattle.rob_linear.specs.Programs.{Program, ShowsEmpty};
ghost use Rattle.rob_linear.specs.Optimality.{IsFeasible, objective_at, IsOptimal, IsInfeasible, IsUnbounded, IsDualFeasible, dual_objective_at};

/// Dual values bound the value of each feasible point.
pub fn weak_duality()
    ensures bound { (P : Program) (x y : ℕ → Fraction) → IsFeasible P x → IsDualFeasible P y
        → objective_at P x ≤ℚ dual_objective_at P y }
{}

/// A best point's value is that of some dual values.
pub fn strong_duality()
    ensures equal { (P : Program) (x : ℕ → Fraction) → IsOptimal P x → (y : ℕ
        → Fraction) × IsDualFeasible P y × (objective_at P x ≡ dual_objective_at P y) }
{}

/// Where no point is feasible some weights show it.
pub fn farkas_lemma()
    ensures weights { (P : Program) → IsInfeasible P → (w : Vector) × ShowsEmpty P w }
{}

/// Each program has a best point, is unbounded, or is infeasible.
pub fn fundamental_theorem()
    ensures status { (P : Program) → ((x : ℕ
        → Fraction) × IsOptimal P x) ⊎ (IsUnbounded P ⊎ IsInfeasible P) }
{}
