//! The three statuses of a model whose named variables take whole numbers.

ghost use Rattle.rob_algebra.specs.Fraction.{Fraction};
ghost use Rattle.rob_meaning.specs.RobustModel.{RobustModel};
ghost use Rattle.rob_reach.specs.WholeStatus.{IsWholeInfeasible, IsWholeOptimal, IsWholeUnbounded};
ghost use Rattle.std.specs.Prelude.{◌≡◌, ℕ, List};

/// At most one status holds, and a model is optimal at one value alone.
pub fn whole_status_laws()
    ensures one_value { (m : RobustModel) (names : List ℕ) (v w : Fraction)
        → IsWholeOptimal m names v → IsWholeOptimal m names w → v ≡ w }
    ensures not_infeasible { (m : RobustModel) (names : List ℕ) (v : Fraction)
        → IsWholeOptimal m names v → IsWholeInfeasible m names → ⊥ }
    ensures not_unbounded { (m : RobustModel) (names : List ℕ) (v : Fraction)
        → IsWholeOptimal m names v → IsWholeUnbounded m names → ⊥ }
    ensures not_both { (m : RobustModel) (names : List ℕ)
        → IsWholeInfeasible m names → IsWholeUnbounded m names → ⊥ }
{}
