//! What a set form says of its model.

ghost use Rattle.std.specs.Prelude.{List, ◌↔◌};
ghost use Rattle.rob_algebra.specs.Fraction.{Fraction};
ghost use Rattle.rob_meaning.specs.Places.{1ℚ};
ghost use Rattle.rob_meaning.specs.RobustModel.{RobustModel};
ghost use Rattle.rob_meaning.specs.SetConditions.{Meets};
ghost use Rattle.rob_meaning.specs.UncertaintySet.{Admits};
ghost use Rattle.rob_meaning.specs.WellFormed.{IsModel};
ghost use Rattle.rob_sets.specs.SetForm.{IsCovered, IsSetForm};
ghost use Rattle.rob_sets.specs.declared.set_form.SetForm.{SetForm};

/// The lifted set projects on the uncertainty set.
pub fn set_form_laws()
    // A scenario is admitted exactly where some numbers in the columns t make all rows hold.
    ensures admitted { (m : RobustModel) (set : SetForm) (u : List Fraction) → IsModel m
        → IsSetForm m set → Admits m u ↔ IsCovered m set 1ℚ u }
    // A vector meets the set conditions, taken s times, exactly where some numbers in the columns t make all rows hold,
    // their right sides taken s times.
    ensures taken { (m : RobustModel) (set : SetForm) (s : Fraction) (p : List Fraction) → IsModel m
        → IsSetForm m set → Meets m s p ↔ IsCovered m set s p }
{}
