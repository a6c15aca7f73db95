//! What the forms say of their model.

ghost use Rattle.std.specs.Prelude.{◌≡◌, ℕ, List, length, ◌↔◌};
ghost use Rattle.rob_algebra.specs.Fraction.{Fraction, ◌≤ℚ◌};
ghost use Rattle.rob_meaning.specs.Forms.{FormHolds, plan_vector};
ghost use Rattle.rob_meaning.specs.Guarantee.{HasBound};
ghost use Rattle.rob_meaning.specs.JointMeaning.{HasJointBound, Keeps};
ghost use Rattle.rob_meaning.specs.Places.{0ℚ, 1ℚ};
ghost use Rattle.rob_meaning.specs.RobustModel.{RobustModel, column_count};
ghost use Rattle.rob_meaning.specs.UncertaintySet.{Admits};
ghost use Rattle.rob_meaning.specs.WellFormed.{IsModel};
ghost use Rattle.rob_elab.specs.Forms.{IsForms, whole_sum};
ghost use Rattle.rob_elab.specs.declared.forms.Forms.{Forms};

/// A form's whole sum is at most 0 exactly where its row, its declared bound or the objective's bound is kept.
pub fn forms_laws()
    // A form's inequality holds at a plan and a joint scenario exactly where its whole sum is at most 0.
    ensures form { (m : RobustModel) (forms : Forms) (i : ℕ) (u plan : List Fraction)
        (tau : Fraction) → IsModel m → IsForms m forms
        → length u ≡ length m.parameters → length plan ≡ column_count m
        → FormHolds m i u plan tau ↔ (whole_sum forms i 1ℚ u (plan_vector 1ℚ plan tau) ≤ℚ 0ℚ) }
    // A plan keeps the model in a joint scenario exactly where all whole sums are at most 0.
    ensures keeps { (m : RobustModel) (forms : Forms) (u plan : List Fraction) (tau : Fraction)
        → IsModel m → IsForms m forms
        → length u ≡ length m.parameters → length plan ≡ column_count m
        → Keeps m plan tau u ↔ ((i : ℕ) → whole_sum forms i 1ℚ u (plan_vector 1ℚ plan tau) ≤ℚ 0ℚ) }
    // A plan has a bound over joint scenarios exactly where all whole sums are at most 0 in every one that is admitted.
    ensures joint_bound { (m : RobustModel) (forms : Forms) (plan : List Fraction) (tau : Fraction)
        → IsModel m → IsForms m forms
        → HasJointBound m plan tau
        ↔ ((length plan ≡ column_count m) × ((u : List Fraction) → Admits m u
        → (i : ℕ) → whole_sum forms i 1ℚ u (plan_vector 1ℚ plan tau) ≤ℚ 0ℚ)) }
    // Where some joint scenario is admitted, the same holds of a bound.
    ensures bound { (m : RobustModel) (forms : Forms) (plan : List Fraction) (tau : Fraction)
        → IsModel m → IsForms m forms
        → (inside : List Fraction) → Admits m inside → HasBound m plan tau
        ↔ ((length plan ≡ column_count m) × ((u : List Fraction) → Admits m u
        → (i : ℕ) → whole_sum forms i 1ℚ u (plan_vector 1ℚ plan tau) ≤ℚ 0ℚ)) }
{}
