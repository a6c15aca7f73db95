//! The price of robustness: one model at several limits of one budget.

ghost use Rattle.rob_algebra.specs.Fraction.{Fraction, ◌≤ℚ◌};
ghost use Rattle.rob_meaning.specs.Guarantee.{HasBound};
ghost use Rattle.rob_meaning.specs.Named.{IsNamed};
ghost use Rattle.rob_meaning.specs.Names.{set_row_names};
ghost use Rattle.rob_meaning.specs.RobustModel.{Member, RobustModel, budget};
ghost use Rattle.rob_meaning.specs.UncertaintySet.{Admits, IsEmptySet};
ghost use Rattle.rob_meaning.specs.WellFormed.{IsModel};
ghost use Rattle.rob_reach.specs.Sweeps.{Answers, GrowsHarder, Rises, SweepAnswer, Swept, is_empty, with_budget};
ghost use Rattle.std.specs.Prelude.{◌≡◌, ◌≢◌, ◌↔◌, ◌<◌, ℕ, suc, List, Some, slice_get};

/// What the model with another limit in one budget is.
pub fn with_budget_laws()
    // It is well formed, and has the model's names.
    ensures model { (m : RobustModel) (n : ℕ) (g : Fraction) → IsModel m
        → IsModel (with_budget m n g) }
    ensures named { (m : RobustModel) (n : ℕ) (g : Fraction) → IsNamed m
        → IsNamed (with_budget m n g) }
    ensures set_rows { (m : RobustModel) (n : ℕ) (g : Fraction)
        → set_row_names (with_budget m n g) ≡ set_row_names m }
    // That limit is replaced, and nothing else: no other statement, and nothing but statements.
    ensures here { (m : RobustModel) (k : ℕ) (g limit : Fraction) (members : List Member)
        → slice_get m.set_lines k ≡ Some (budget limit members)
        → slice_get (with_budget m (suc k) g).set_lines k ≡ Some (budget g members) }
    ensures elsewhere { (m : RobustModel) (n k : ℕ) (g : Fraction) → suc k ≢ n
        → slice_get (with_budget m n g).set_lines k ≡ slice_get m.set_lines k }
    ensures rest { (m : RobustModel) (n : ℕ) (g : Fraction)
        → with_budget m n g ≡ record m { set_lines = (with_budget m n g).set_lines } }
    // A scenario admitted at the smaller budget is admitted at the greater one, so a bound at the
    // greater budget is a bound at the smaller one.
    ensures admits { (m : RobustModel) (n : ℕ) (g h : Fraction) → g ≤ℚ h → (u : List Fraction)
        → Admits (with_budget m n g) u → Admits (with_budget m n h) u }
    ensures bound { (m : RobustModel) (n : ℕ) (g h : Fraction) → g ≤ℚ h
        → (plan : List Fraction) (tau : Fraction)
        → HasBound (with_budget m n h) plan tau → HasBound (with_budget m n g) plan tau }
{}

/// What a sweep answers.
pub fn sweep_laws()
    // A model has one answer, which is empty exactly where it admits nothing.
    ensures one_answer { (m : RobustModel) (a b : SweepAnswer) → Answers m a → Answers m b → a ≡ b }
    ensures empty { (m : RobustModel) (a : SweepAnswer) → Answers m a
        → (a ≡ is_empty) ↔ IsEmptySet m }
    ensures one_sweep { (m : RobustModel) (n : ℕ) (limits : List Fraction)
        (xs ys : List SweepAnswer) → Swept m n limits xs → Swept m n limits ys → xs ≡ ys }
    // Of two answers, the one at the greater limit is no easier;
    ensures pair { (m : RobustModel) (n : ℕ) (g h : Fraction) → g ≤ℚ h → (a b : SweepAnswer)
        → Answers (with_budget m n g) a → Answers (with_budget m n h) b → GrowsHarder m.sense a b }
    // so in a sweep whose limits rise, the later one.
    ensures harder { (m : RobustModel) (n : ℕ) (limits : List Fraction) (answers : List SweepAnswer)
        → Rises limits → Swept m n limits answers → (i j : ℕ) → i < j → (a b : SweepAnswer)
        → slice_get answers i ≡ Some a → slice_get answers j ≡ Some b → GrowsHarder m.sense a b }
{}
