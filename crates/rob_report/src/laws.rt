//! What a refusal names can be printed. The function does nothing; its clauses are the claims.

ghost use Rattle.std.specs.Prelude.{ℕ};
ghost use Rattle.rob_elab.specs.Forms.{judged_forms};
ghost use Rattle.rob_meaning.specs.RobustModel.{RobustModel};
ghost use Rattle.rob_model.specs.declared.place.Spot.{Spot};
ghost use Rattle.rob_report.specs.Places.{IsSpotOf};
ghost use Rattle.rob_sets.specs.FirstWide.{IsFirstWide};
ghost use Rattle.rob_sets.specs.SetForm.{judged_set};

/// Where a set or the forms can't be written in whole numbers, the spot that is named is one of the model's.
pub fn spot_laws()
    ensures set { (m : RobustModel) (limit : ℕ) (spot : Spot)
        → IsFirstWide limit m (judged_set m) spot → IsSpotOf m spot }
    ensures forms { (m : RobustModel) (limit : ℕ) (spot : Spot)
        → IsFirstWide limit m (judged_forms m) spot → IsSpotOf m spot }
{}
