//! Boxes: models with bounds of variables tightened along a path of branches.

ghost use Rattle.rob_algebra.specs.Fraction.{Fraction};
ghost use Rattle.rob_meaning.specs.Named.{IsNamed};
ghost use Rattle.rob_meaning.specs.Names.{column_names, form_names};
ghost use Rattle.rob_meaning.specs.RobustModel.{RobustModel};
ghost use Rattle.rob_meaning.specs.UncertaintySet.{Admits};
ghost use Rattle.rob_meaning.specs.WellFormed.{IsModel};
ghost use Rattle.rob_reach.specs.Boxes.{Branch, behind, box, box_above, box_below};
ghost use Rattle.rob_reach.specs.Ranges.{is_bounded};
ghost use Rattle.rob_reach.specs.Trees.{IsIn};
ghost use Rattle.rob_reach.specs.WholeStatus.{WholeBound};
ghost use Rattle.std.specs.Prelude.{◌≡◌, ◌↔◌, ◌⊎◌, T, ℕ, ℤ, List};

/// What a box keeps of its model, and what a branch takes away.
pub fn box_laws()
    // A box is well formed, and has the model's scenarios.
    ensures model { (m : RobustModel) (path : List Branch) → IsModel m → IsModel (box m path) }
    ensures admitted { (m : RobustModel) (path : List Branch) (u : List Fraction)
        → Admits (box m path) u ↔ Admits m u }
    // A bound in a box is a bound in the model.
    ensures bound { (m : RobustModel) (path : List Branch) (names : List ℕ) (plan : List Fraction)
        (tau : Fraction) → WholeBound (box m path) names plan tau → WholeBound m names plan tau }
    // A plan with whole numbers that has a bound has it in one of the two boxes of a branch.
    ensures split { (m : RobustModel) (names : List ℕ) (j : ℕ) (k : ℤ) (plan : List Fraction)
        (tau : Fraction) → IsIn j names → WholeBound m names plan tau
        → WholeBound (box_below m j k) names plan tau
        ⊎ WholeBound (box_above m j k) names plan tau }
{}

/// Texts about a box speak of the model's parts.
pub fn box_name_laws()
    ensures named { (m : RobustModel) (b : Branch) → IsNamed m → IsNamed (behind m b) }
    ensures columns { (m : RobustModel) (b : Branch) → column_names (behind m b) ≡ column_names m }
    // A branch on a variable with both bounds brings no form and takes none away.
    ensures forms { (m : RobustModel) (b : Branch) → T (is_bounded m.variables b.variable)
        → form_names (behind m b) ≡ form_names m }
{}
