//! What the verdicts on groups of conditions say.

ghost use Rattle.std.specs.Prelude.{◌≡◌, ℕ, List, length, None, Some};
ghost use Rattle.rob_algebra.specs.Fraction.{Fraction};
ghost use Rattle.rob_cert.specs.Shape.{AreCoversOf, HasShape, IsItemOf};
ghost use Rattle.rob_check.specs.Covers.{Covering};
ghost use Rattle.rob_check.specs.Conditions.{covering_tests, inside_tests, items_tests, sum_tests, verdict_of};
ghost use Rattle.rob_check.specs.Narrow.{IsDecided, NoneWide};
ghost use Rattle.rob_check.specs.Verdicts.{Judges, verdict};
ghost use Rattle.rob_check.specs.Claims.{SumsToPositive};
ghost use Rattle.rob_meaning.specs.Certificates.{Certificate, Item};
ghost use Rattle.rob_meaning.specs.Forms.{matrices};
ghost use Rattle.rob_meaning.specs.Places.{Each};
ghost use Rattle.rob_meaning.specs.Proves.{EachCovered, IsItem, Proves, combination, target};
ghost use Rattle.rob_meaning.specs.RobustModel.{RobustModel, column_count};
ghost use Rattle.rob_meaning.specs.UncertaintySet.{Admits};
ghost use Rattle.rob_meaning.specs.WellFormed.{IsModel};

/// Where no number is wide the conditions are what it means that a certificate proves.
pub fn check_laws()
    // The scenario `inside` is admitted.
    ensures inside { (limit : ℕ) (m : RobustModel) (u : List Fraction) → IsModel m
        → length u ≡ length m.parameters → Judges (Admits m u) (verdict (inside_tests limit m u)) }
    // The items are multiples of forms at multiples of scenarios and at rays.
    ensures items { (limit : ℕ) (m : RobustModel) → IsModel m → (i : ℕ) (items : List Item)
        → Each (IsItemOf m) items
        → Judges (Each (IsItem m) items) (verdict (items_tests limit m i items)) }
    // The items of an optimal certificate sum to the value less the bound, or, for maximise, the bound less the value.
    ensures optimal { (limit : ℕ) (m : RobustModel) (items : List Item) (v : Fraction)
        → Judges (combination m items ≡ target m.sense (column_count m) v)
        (verdict (sum_tests limit (matrices m) m.sense (column_count m) (Some v) items)) }
    // Those of an infeasible one sum to a positive constant alone.
    ensures infeasible { (limit : ℕ) (m : RobustModel) (items : List Item)
        → Judges (SumsToPositive m items)
        (verdict (sum_tests limit (matrices m) m.sense (column_count m) None items)) }
    // Each form is covered at a vector.
    ensures covered { (limit : ℕ) (m : RobustModel) (g : Covering) → AreCoversOf m g.covers
        → Judges (EachCovered m g.covers g.scale g.vector) (verdict (covering_tests limit m g)) }
    // The whole: accepted, the certificate proves what it claims; rejected, it doesn't.
    ensures proves { (limit : ℕ) (m : RobustModel) (c : Certificate) → IsModel m → HasShape m c
        → Judges (Proves m c) (verdict_of limit m c) }
    // Where no number of the check is wide it is accepted exactly where it proves, and else rejected at the first place
    // whose condition fails.
    ensures none_wide { (limit : ℕ) (m : RobustModel) (c : Certificate) → IsModel m → HasShape m c
        → NoneWide limit m c → IsDecided limit m c }
{}
