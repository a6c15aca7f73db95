//! The program of a model's set.

ghost use Rattle.rob_linear.specs.Vectors.{Matrix, Columns};
ghost use Rattle.rob_algebra.specs.Fraction.{Fraction};
ghost use Rattle.rob_counterpart.specs.Counterpart.{set_program};
ghost use Rattle.rob_counterpart.specs.Endings.{InfeasibleEnding};
ghost use Rattle.rob_counterpart.specs.ReadCertificates.{scenario_read, weights_read};
ghost use Rattle.rob_linear.specs.Optimality.{IsBasicPoint};
ghost use Rattle.rob_linear.specs.Programs.{system_of};
ghost use Rattle.rob_linear.specs.Systems.{IsBasis, Feasible};
ghost use Rattle.rob_meaning.specs.Multipliers.{ShowsEmpty, ShowsEmptyIn};
ghost use Rattle.rob_meaning.specs.RobustModel.{RobustModel};
ghost use Rattle.rob_meaning.specs.UncertaintySet.{Admits, IsEmptyIn, IsEmptySet};
ghost use Rattle.rob_meaning.specs.WellFormed.{IsModel};
ghost use Rattle.std.specs.Prelude.{ℕ};

/// What the set's program says of scenarios. Where it ends infeasible, its Farkas weights show that no scenario is
/// admitted; where it stands at a feasible basis, the parameters of the basic solution are an admitted scenario.
pub fn set_laws()
    ensures weights { (m : RobustModel) (own : Columns) (rows : Matrix)
        → InfeasibleEnding (set_program m) own rows → ShowsEmpty m (weights_read m rows) }
    ensures empty { (m : RobustModel) (own : Columns) (rows : Matrix) → IsModel m
        → InfeasibleEnding (set_program m) own rows → IsEmptySet m }
    // They belong to rows of one set alone, which admits nothing.
    ensures one_set { (m : RobustModel) (own : Columns) (rows : Matrix) → IsModel m
        → InfeasibleEnding (set_program m) own rows
        → (S : ℕ) × ShowsEmptyIn m S (weights_read m rows) × IsEmptyIn m S }
    ensures scenario { (m : RobustModel) (own : Columns) (rows : Matrix) (x : ℕ → Fraction)
        → IsModel m → IsBasis (system_of (set_program m)) own rows
        → Feasible (system_of (set_program m)) rows
        → IsBasicPoint (system_of (set_program m)) own rows x → Admits m (scenario_read m x) }
{}
