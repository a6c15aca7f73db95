//! The canonical text of the split model of a model that a text reads as.

ghost use Rattle.std.specs.Prelude.{◌≡◌, ℕ, ◌≤◌, ◌<◌, ◌^◌, [], List, length};
ghost use Rattle.rob_meaning.specs.RobustModel.{RobustModel};
ghost use Rattle.rob_model.specs.Limits.{IsWithinLimits};
ghost use Rattle.rob_parse.specs.Modelled.{ReadsModel};
ghost use Rattle.rob_pieces.specs.Cuts.{AreCuts, Cut};
ghost use Rattle.rob_pieces.specs.SplitModel.{split_model};
ghost use Rattle.rob_pieces.specs.SplitNames.{HasGoodNames};
ghost use Rattle.rob_split_text.specs.SplitTexts.{HasFewTokens, HaveFittingLevels};
ghost use Rattle.rob_write.specs.Canonical.{model_text};

/// Of a model of one set that a text reads as at a limit, cut at 1 to 3 of its parameters' numbers within that limit.
pub fn split_reading()
    // Where the split model has good names and is within the limits on models, and its text has no more tokens than a
    // text may have, that text is read as the split model, at the same limit.
    ensures read { (limit : ℕ) (text : List ℕ) (m : RobustModel) (cuts : List Cut) → 1 ≤ limit
        → limit < 2 ^ 62
        → ReadsModel limit text m → m.sets ≡ [] → length cuts ≤ 3 → AreCuts m cuts → HaveFittingLevels limit cuts
        → HasGoodNames (split_model m cuts) → IsWithinLimits (split_model m cuts) → HasFewTokens (split_model m cuts)
        → ReadsModel limit (model_text (split_model m cuts)) (split_model m cuts) }
    // It is read, as whichever model, only where it has no more tokens than that.
    ensures few { (limit : ℕ) (text : List ℕ) (m : RobustModel) (cuts : List Cut) → 1 ≤ limit
        → limit < 2 ^ 62
        → ReadsModel limit text m → m.sets ≡ [] → length cuts ≤ 3 → AreCuts m cuts → HaveFittingLevels limit cuts
        → HasGoodNames (split_model m cuts) → IsWithinLimits (split_model m cuts)
        → (other : RobustModel) → ReadsModel limit (model_text (split_model m cuts)) other
        → HasFewTokens (split_model m cuts) }
{}
