//! Certificates, and the multipliers that they consist of.

ghost use Rattle.rob_algebra.specs.Fraction.{Fraction, ◌<ℚ◌, ◌≤ℚ◌};
ghost use Rattle.rob_meaning.specs.Certificates.{Certificate};
ghost use Rattle.rob_meaning.specs.Forms.{form_at, matrices};
ghost use Rattle.rob_meaning.specs.Multipliers.{Covers};
ghost use Rattle.rob_meaning.specs.Places.{0ℚ};
ghost use Rattle.rob_meaning.specs.Proves.{HasStatus, IsTight, Proves, ProvesOptimal};
ghost use Rattle.rob_meaning.specs.RobustModel.{RobustModel};
ghost use Rattle.rob_meaning.specs.SetConditions.{IsTaken};
ghost use Rattle.rob_meaning.specs.WellFormed.{IsModel};
ghost use Rattle.std.specs.Prelude.{◌<◌, ℕ, List, length};

/// What certificates and covers prove.
pub fn certificate_laws()
    // If a certificate proves, the model has its status, with its value.
    ensures true_of { (m : RobustModel) (c : Certificate) → IsModel m
        → Proves m c → HasStatus m c.status c.value }
    // In an optimal certificate that proves, the sum of each item's form is 0 at the plan.
    ensures tight { (m : RobustModel) (c : Certificate) → IsModel m
        → ProvesOptimal m c → IsTight m c }
    // A covered form's whole sum is at most 0 at each multiple of a scenario and at each ray.
    ensures covered { (m : RobustModel) (i : ℕ) (s : Fraction) (z amounts : List Fraction)
        → IsModel m → i < length (matrices m) → 0ℚ <ℚ s → Covers m i s z amounts
        → (base : Fraction) (p : List Fraction) → IsTaken m base p → form_at m i base p z ≤ℚ 0ℚ }
{}
