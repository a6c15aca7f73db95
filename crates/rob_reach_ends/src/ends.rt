//! That branch and bound ends, with nothing asked of a solver.

ghost use Rattle.rob_algebra.specs.Fraction.{Fraction};
ghost use Rattle.rob_meaning.specs.RobustModel.{RobustModel};
ghost use Rattle.rob_meaning.specs.UncertaintySet.{Admits};
ghost use Rattle.rob_meaning.specs.WellFormed.{IsModel};
ghost use Rattle.rob_reach.specs.Growing.{IsGrown, Solves};
ghost use Rattle.rob_reach.specs.Ranges.{KeepsBothBounds};
ghost use Rattle.rob_reach.specs.Trees.{Tree};
ghost use Rattle.rob_reach.specs.WholeStatus.{IsWholeInfeasible, IsWholeOptimal, IsWholeUnbounded};
ghost use Rattle.std.specs.Prelude.{◌⊎◌, ℕ, List};

/// What every model with a scenario has.
pub fn ending_laws()
    // A certificate that proves, for each of its boxes.
    ensures solves { (m : RobustModel) (inside : List Fraction) → IsModel m → Admits m inside
        → Solves m }
    // So a tree grows,
    ensures grows { (m : RobustModel) (names : List ℕ) (inside : List Fraction) → IsModel m
        → KeepsBothBounds m names → Admits m inside → (t : Tree) × IsGrown m names t }
    // and there is a status over plans with whole numbers.
    ensures status { (m : RobustModel) (names : List ℕ) (inside : List Fraction) → IsModel m
        → KeepsBothBounds m names → Admits m inside → ((v : Fraction) × IsWholeOptimal m names v)
        ⊎ (IsWholeInfeasible m names ⊎ IsWholeUnbounded m names) }
{}
