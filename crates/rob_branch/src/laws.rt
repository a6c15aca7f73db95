//! What the text of a tree that has grown says of it, and that a tree has one verdict.

ghost use Rattle.std.specs.Prelude.{◌≡◌, ◌⊎◌, ◌-◌, ◌^◌, ◌≤◌, ℕ, List, None};
ghost use Rattle.rob_cert.specs.Apart.{IsNamedInWords};
ghost use Rattle.rob_meaning.specs.Named.{IsNamed};
ghost use Rattle.rob_meaning.specs.RobustModel.{RobustModel};
ghost use Rattle.rob_meaning.specs.WellFormed.{IsModel};
ghost use Rattle.rob_reach.specs.Ranges.{whole_rule};
ghost use Rattle.rob_reach.specs.Trees.{Tree};
ghost use Rattle.rob_tree.specs.Shape.{HasTreeShape};
ghost use Rattle.rob_tree.specs.declared.verdict.TreeVerdict.{TreeVerdict};
ghost use Rattle.rob_tree.specs.declared.verdict.TreeVerdict.TheVariants.{Memory};
ghost use Rattle.rob_branch.specs.GrownText.{IsGrownWithin, IsReadAgain};
ghost use Rattle.rob_branch.specs.Verdicts.{IsVerdict};

/// A tree that has grown is read again from its text, at any width.
pub fn grown_text_laws()
    // Where no name has a space or a line's end, the text of a tree that has grown, whose numbers fit, is read as it.
    ensures read_again { (m : RobustModel) (limit : ℕ) (names : List ℕ) → IsModel m → IsNamed m
        → IsNamedInWords m
        → limit ≤ 2 ^ 62 - 1 → whole_rule m names ≡ None → (t : Tree)
        → IsGrownWithin limit m names t → IsReadAgain limit m names t }
{}

/// A tree has at most one verdict, want of memory aside.
pub fn verdict_laws()
    // Two verdicts on a tree are the same, or one of them is want of memory.
    ensures one { (limit : ℕ) (m : RobustModel) (names : List ℕ) (t : Tree) → IsModel m
        → HasTreeShape limit m names t
        → (v w : TreeVerdict) → IsVerdict limit m names t v → IsVerdict limit m names t w
        → (w ≡ v) ⊎ (w ≡ Memory) ⊎ (v ≡ Memory) }
{}
