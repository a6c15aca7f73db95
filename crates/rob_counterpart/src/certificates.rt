//! Certificates that are read off the endings of a model's counterpart.

ghost use Rattle.rob_linear.specs.Vectors.{Matrix, Columns};
ghost use Rattle.rob_algebra.specs.Fraction.{Fraction};
ghost use Rattle.rob_counterpart.specs.Counterpart.{counterpart};
ghost use Rattle.rob_counterpart.specs.Endings.{OptimalEnding, InfeasibleEnding, UnboundedEnding};
ghost use Rattle.rob_counterpart.specs.ReadCertificates.{IsReadOptimal, IsReadInfeasible, IsReadUnbounded};
ghost use Rattle.rob_counterpart.specs.ReadCertificates.{optimal_read, infeasible_read, unbounded_read};
ghost use Rattle.rob_meaning.specs.Certificates.{Certificate};
ghost use Rattle.rob_meaning.specs.Proves.{Proves, ProvesOptimal, ProvesInfeasible, ProvesUnbounded};
ghost use Rattle.rob_meaning.specs.RobustModel.{RobustModel};
ghost use Rattle.rob_meaning.specs.UncertaintySet.{Admits};
ghost use Rattle.rob_meaning.specs.WellFormed.{IsModel};
ghost use Rattle.std.specs.Prelude.{ℕ, List};

/// Where a certificate is read off an ending, and its scenario is admitted, it proves.
pub fn ending_laws()
    // Optimal: the multipliers cover the plan, and the dual values show that no plan is better.
    ensures optimal { (m : RobustModel) (own : Columns) (rows : Matrix) (x y : ℕ → Fraction)
        (c : Certificate) → IsModel m → Admits m c.inside → IsReadOptimal m own rows x y c
        → ProvesOptimal m c }
    // Infeasible: the Farkas weights sum the forms to a positive number.
    ensures infeasible { (m : RobustModel) (own : Columns) (rows : Matrix) (c : Certificate)
        → IsModel m → Admits m c.inside → IsReadInfeasible m own rows c → ProvesInfeasible m c }
    // Unbounded: the plan and the direction are both bounded, and the direction's bound improves.
    ensures unbounded { (m : RobustModel) (own : Columns) (rows : Matrix) (column : ℕ)
        (x r : ℕ → Fraction) (c : Certificate) → IsModel m → Admits m c.inside
        → IsReadUnbounded m own rows column x r c → ProvesUnbounded m c }
{}

/// Each ending has such a certificate: covers and items in order, without those that are all 0.
pub fn reading_laws()
    ensures optimal { (m : RobustModel) (inside : List Fraction) (own : Columns) (rows : Matrix)
        (x y : ℕ → Fraction) → OptimalEnding (counterpart m) own rows x y
        → IsReadOptimal m own rows x y (optimal_read m inside x y) }
    ensures infeasible { (m : RobustModel) (inside : List Fraction) (own : Columns)
        (rows : Matrix) → InfeasibleEnding (counterpart m) own rows
        → IsReadInfeasible m own rows (infeasible_read m inside rows) }
    ensures unbounded { (m : RobustModel) (inside : List Fraction) (own : Columns)
        (rows : Matrix) (column : ℕ) (x r : ℕ → Fraction)
        → UnboundedEnding (counterpart m) own rows column x r
        → IsReadUnbounded m own rows column x r (unbounded_read m inside x r) }
{}

/// And so each of these proves what its status says.
pub fn proving_laws()
    ensures optimal { (m : RobustModel) (inside : List Fraction) (own : Columns) (rows : Matrix)
        (x y : ℕ → Fraction) → IsModel m → Admits m inside
        → OptimalEnding (counterpart m) own rows x y → Proves m (optimal_read m inside x y) }
    ensures infeasible { (m : RobustModel) (inside : List Fraction) (own : Columns)
        (rows : Matrix) → IsModel m → Admits m inside
        → InfeasibleEnding (counterpart m) own rows → Proves m (infeasible_read m inside rows) }
    ensures unbounded { (m : RobustModel) (inside : List Fraction) (own : Columns)
        (rows : Matrix) (column : ℕ) (x r : ℕ → Fraction) → IsModel m → Admits m inside
        → UnboundedEnding (counterpart m) own rows column x r
        → Proves m (unbounded_read m inside x r) }
{}
