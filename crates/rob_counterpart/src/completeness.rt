//! Each model has a scenario or weights that exclude one, and a certificate where it has a scenario.

ghost use Rattle.rob_algebra.specs.Fraction.{Fraction};
ghost use Rattle.rob_counterpart.specs.Endings.{OptimalEnding, UnboundedEnding};
ghost use Rattle.rob_linear.specs.Programs.{Program, system_of};
ghost use Rattle.rob_linear.specs.Systems.{IsBasis, EndsOptimal, EndsUnbounded};
ghost use Rattle.rob_linear.specs.Vectors.{Columns, Matrix};
ghost use Rattle.rob_meaning.specs.Certificates.{Certificate};
ghost use Rattle.rob_meaning.specs.Multipliers.{ShowsEmpty};
ghost use Rattle.rob_meaning.specs.Proves.{Proves};
ghost use Rattle.rob_meaning.specs.RobustModel.{RobustModel};
ghost use Rattle.rob_meaning.specs.Status.{IsOptimal, IsInfeasible, IsUnbounded};
ghost use Rattle.rob_meaning.specs.UncertaintySet.{Admits};
ghost use Rattle.rob_meaning.specs.WellFormed.{IsModel};
ghost use Rattle.std.specs.Prelude.{◌≡◌, ◌⊎◌, ℕ, List};

/// Each optimal basis has a basic solution and dual values, each unbounded one a basic solution and a move.
pub fn number_laws()
    ensures optimal { (P : Program) (own : Columns) (rows : Matrix) → IsBasis (system_of P) own rows
        → EndsOptimal (system_of P) rows
        → (x : ℕ → Fraction) × (y : ℕ → Fraction) × OptimalEnding P own rows x y }
    ensures unbounded { (P : Program) (own : Columns) (rows : Matrix) (column : ℕ)
        → IsBasis (system_of P) own rows → EndsUnbounded (system_of P) own rows column
        → (x : ℕ → Fraction) × (r : ℕ → Fraction) × UnboundedEnding P own rows column x r }
{}

/// What every model has.
pub fn completeness_laws()
    // A scenario, or weights of the set rows that show that there is none.
    ensures scenario { (m : RobustModel) → IsModel m
        → ((u : List Fraction) × Admits m u) ⊎ ((weights : List Fraction) × ShowsEmpty m weights) }
    // With a scenario, a certificate that proves.
    ensures certificate { (m : RobustModel) (inside : List Fraction) → IsModel m → Admits m inside
        → (c : Certificate) × (c.inside ≡ inside) × Proves m c }
    // And so a status: strong duality of robust programs.
    ensures status { (m : RobustModel) (inside : List Fraction) → IsModel m → Admits m inside
        → ((v : Fraction) × IsOptimal m v) ⊎ (IsInfeasible m ⊎ IsUnbounded m) }
{}
