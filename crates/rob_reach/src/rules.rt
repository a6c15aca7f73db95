//! The rules on named variables.

ghost use Rattle.rob_meaning.specs.Places.{Each};
ghost use Rattle.rob_meaning.specs.RobustModel.{RobustModel};
ghost use Rattle.rob_reach.specs.Ranges.{KeepsBothBounds, KeepsRanges, product_of_ranges, whole_rule};
ghost use Rattle.std.specs.Prelude.{◌≡◌, ◌↔◌, ◌<◌, ℕ, List, None, Some, length};

/// Which of the rules 62 and 63 is told.
pub fn rule_laws()
    ensures kept { (m : RobustModel) (names : List ℕ)
        → (whole_rule m names ≡ None) ↔ (KeepsBothBounds m names × KeepsRanges m names) }
    ensures rule_62 { (m : RobustModel) (names : List ℕ)
        → (whole_rule m names ≡ Some 62) ↔ (KeepsBothBounds m names → ⊥) }
    ensures rule_63 { (m : RobustModel) (names : List ℕ) → (whole_rule m names ≡ Some 63)
        ↔ (KeepsBothBounds m names × (1000 < product_of_ranges m.variables names)) }
    // What has both bounds exists.
    ensures inside { (m : RobustModel) (names : List ℕ) → KeepsBothBounds m names
        → Each (λ j. j < length m.variables) names }
{}
