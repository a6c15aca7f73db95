//! The cells of an uncertainty set, and the split model's sets. A cut is at one of the model's parameters
//! (`AreCuts`), and the model has one set.

ghost use Rattle.rob_algebra.specs.Fraction.{Fraction};
ghost use Rattle.rob_meaning.specs.Named.{IsNamed};
ghost use Rattle.rob_meaning.specs.RobustModel.{RobustModel, set_count};
ghost use Rattle.rob_meaning.specs.UncertaintySet.{Admits, AdmitsIn, IsEmptySet};
ghost use Rattle.rob_meaning.specs.WellFormed.{IsModel};
ghost use Rattle.rob_pieces.specs.Cuts.{AreCuts, CellHolds, Cut, IsCell, cell_count};
ghost use Rattle.rob_pieces.specs.SplitModel.{split_model};
ghost use Rattle.rob_pieces.specs.SplitNames.{HasGoodNames};
ghost use Rattle.std.specs.Prelude.{◌≡◌, ◌<◌, ◌≤◌, ◌^◌, [], ℕ, List, length, suc, ◌↔◌};

/// Which cells hold a scenario, and what the split model's sets admit.
pub fn split_laws()
    // Each scenario is in some cell.
    ensures covered { (cuts : List Cut) (u : List Fraction)
        → (c : ℕ) × (IsCell cuts c × CellHolds cuts c u) }
    // The split model is well formed where the model is; its sets are the default set and the cells.
    ensures formed { (m : RobustModel) (cuts : List Cut) → IsModel m → m.sets ≡ [] → AreCuts m cuts
        → IsModel (split_model m cuts) }
    ensures sets { (m : RobustModel) (cuts : List Cut)
        → set_count (split_model m cuts) ≡ suc (cell_count cuts) }
    // With at most 3 cuts its names are as they must be where the model's are, its declared names differ and are
    // short, and statements are few.
    ensures named { (m : RobustModel) (cuts : List Cut) → m.sets ≡ [] → length cuts ≤ 3 → IsNamed m
        → HasGoodNames (split_model m cuts) → length (split_model m cuts).set_lines < 2 ^ 32
        → IsNamed (split_model m cuts) }
    // What the set of a cell admits is what the model admits and the cell holds.
    ensures admitted { (m : RobustModel) (cuts : List Cut) (c : ℕ) (u : List Fraction) → IsModel m
        → m.sets ≡ [] → AreCuts m cuts → IsCell cuts c
        → AdmitsIn (split_model m cuts) c u ↔ (AdmitsIn m 0 u × CellHolds cuts c u) }
    // Where a cell holds no admitted scenario, no joint scenario of the split model is admitted.
    ensures empty { (m : RobustModel) (cuts : List Cut) (c : ℕ) → IsModel m → m.sets ≡ []
        → AreCuts m cuts → IsCell cuts c
        → ((u : List Fraction) → AdmitsIn m 0 u → CellHolds cuts c u → ⊥)
        → IsEmptySet (split_model m cuts) }
    // And some is admitted exactly where each cell holds an admitted scenario.
    ensures some_admitted { (m : RobustModel) (cuts : List Cut) → IsModel m → m.sets ≡ []
        → AreCuts m cuts → ((w : List Fraction) × Admits (split_model m cuts) w)
        ↔ ((c : ℕ) → IsCell cuts c
        → (u : List Fraction) × (AdmitsIn m 0 u × CellHolds cuts c u)) }
{}
