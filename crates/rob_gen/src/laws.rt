//! What the model of a number is, for every number.

ghost use Rattle.std.specs.Prelude.{◌≡◌, ℕ, ◌%◌, List};
ghost use Rattle.rob_algebra.specs.Fraction.{Fraction};
ghost use Rattle.rob_meaning.specs.Named.{IsNamed};
ghost use Rattle.rob_meaning.specs.UncertaintySet.{Admits};
ghost use Rattle.rob_meaning.specs.WellFormed.{IsModel};
ghost use Rattle.rob_model.specs.Limits.{IsWithinLimits};
ghost use Rattle.rob_gen.specs.Generated.{generated};

/// The model of a number is well formed, within the limits and well named, and is that of the number's remainder by 12.
pub fn generated_laws()
    ensures model { (n : ℕ) → IsModel (generated n) }
    ensures limits { (n : ℕ) → IsWithinLimits (generated n) }
    ensures named { (n : ℕ) → IsNamed (generated n) }
    ensures again { (n : ℕ) → generated n ≡ generated (n % 12) }
    // Some scenario is admitted, as that where each demand is at its centre.
    ensures admitted { (n : ℕ) → (u : List Fraction) × Admits (generated n) u }
{}
