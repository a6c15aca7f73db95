//! What the text of a tree says of it.

ghost use Rattle.std.specs.Prelude.{◌≡◌, ◌-◌, ◌^◌, ◌<◌, ◌≤◌, ◌⊎◌, List, ℕ, length};
ghost use Rattle.rob_cert.specs.Apart.{IsNamedInWords};
ghost use Rattle.rob_meaning.specs.Named.{IsNamed};
ghost use Rattle.rob_meaning.specs.RobustModel.{RobustModel};
ghost use Rattle.rob_meaning.specs.WellFormed.{IsModel};
ghost use Rattle.rob_reach.specs.Ranges.{KeepsBothBounds};
ghost use Rattle.rob_reach.specs.Trees.{Tree};
ghost use Rattle.rob_tree.specs.Reading.{HasCause, TreeFits};
ghost use Rattle.rob_tree.specs.TreeText.{IsTextOfTree};
ghost use Rattle.rob_tree.specs.declared.error.TreeErr.TheVariants.{Rule};

/// Laws of spelling: a text is that of exactly one tree whose numbers fit, or breaks exactly one rule at one line.
pub fn spelling_laws()
    // Each text is that of a tree whose numbers fit, or breaks a rule.
    ensures some { (m : RobustModel) (limit : ℕ) (names : List ℕ) → 1 ≤ limit → limit ≤ 2 ^ 62 - 1
        → KeepsBothBounds m names → (text : List ℕ) → length text < 2 ^ 32
        → ((t : Tree) × IsTextOfTree limit m names t text × TreeFits limit m t)
        ⊎ ((rule : ℕ) × (line : ℕ) × HasCause limit m names text (Rule rule line)) }
    // A tree has one spelling.
    ensures spelled_once { (m : RobustModel) (limit : ℕ) (names : List ℕ) (t : Tree) (r s : List ℕ)
        → IsTextOfTree limit m names t r → IsTextOfTree limit m names t s → r ≡ s }
    // Where no name has a space or a line's end, the text of a tree whose numbers fit breaks no rule.
    ensures breaks_none { (m : RobustModel) (limit : ℕ) (names : List ℕ) → IsModel m → IsNamed m
        → IsNamedInWords m
        → limit ≤ 2 ^ 62 - 1 → KeepsBothBounds m names → (t : Tree) (text : List ℕ)
        → IsTextOfTree limit m names t text
        → TreeFits limit m t → (rule line : ℕ) → HasCause limit m names text (Rule rule line) → ⊥ }
    // Such a text is that of one tree alone.
    ensures read_once { (m : RobustModel) (limit : ℕ) (names : List ℕ) → IsModel m → IsNamed m
        → IsNamedInWords m
        → limit ≤ 2 ^ 62 - 1 → KeepsBothBounds m names → (t u : Tree) (text : List ℕ)
        → IsTextOfTree limit m names t text → IsTextOfTree limit m names u text
        → TreeFits limit m t → TreeFits limit m u → t ≡ u }
    // A text breaks one rule, at one line.
    ensures one_cause { (m : RobustModel) (limit : ℕ) (names : List ℕ) → IsModel m → IsNamed m
        → IsNamedInWords m
        → limit ≤ 2 ^ 62 - 1 → KeepsBothBounds m names
        → (text : List ℕ) (rule line other number : ℕ)
        → HasCause limit m names text (Rule rule line)
        → HasCause limit m names text (Rule other number) → (rule ≡ other) × (line ≡ number) }
{}
