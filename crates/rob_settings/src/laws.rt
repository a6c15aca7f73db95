//! What is passed over, in the definitions' own words.

ghost use Rattle.std.specs.Prelude.{◌≡◌, ℤ, ◌≤ℤ◌, ◌<ℤ◌, List};
ghost use Rattle.rob_index.specs.Forms.{Ends};
ghost use Rattle.rob_settings.specs.Live.{IsDead};
ghost use Rattle.rob_settings.specs.Settings.{between};

/// Values at which the ranges inside have no setting may be passed over.
pub fn passed_over()
    ensures settings { (upto : ℤ) (inner : List Ends) (vs : List ℤ) (value live : ℤ) → value ≤ℤ live
        → ((w : ℤ) → value ≤ℤ w → w <ℤ live → IsDead inner vs w)
        → between value upto inner vs ≡ between live upto inner vs }
{}
