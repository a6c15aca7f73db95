//! What statements with indices stand for.

ghost use Rattle.std.specs.Prelude.{◌≡◌, ℕ, ◌<◌, ℤ, pos, ◌+ℤ◌, ◌<ℤ◌, List, [], ◌∷◌, ◌++◌, get_or};
ghost use Rattle.std.specs.List.{flat_map};
ghost use Rattle.rob_index.specs.Statements.{Name, Plain, Range, Tree, Indexed};
ghost use Rattle.rob_index.specs.Settings.{Setting, index_value, upwards, values, settings};
ghost use Rattle.rob_index.specs.Expansion.{expand_tree, Expands, expand};
ghost use Rattle.rob_index.specs.PlainLines.{IsPlainLine, itself_line};
ghost use Rattle.rob_index.specs.Places.{places};

/// The relation of expansion is the function.
pub fn one_expansion()
    ensures is { (words : List Name) (t : Tree) (setting : Setting) (p : Plain)
        → Expands words t setting p → expand_tree words t setting ≡ p }
    ensures some { (words : List Name) (t : Tree) (setting : Setting)
        → Expands words t setting (expand_tree words t setting) }
{}

/// A range takes its values upwards, and of several ranges the last runs fastest.
pub fn order_of_settings()
    ensures last_fastest { (rs ss : List Range) (setting : Setting)
        → settings (rs ++ ss) setting ≡ flat_map (settings ss) (settings rs setting) }
    ensures upwards { (n k : ℕ) (a : ℤ) → k < n → get_or (upwards a n) k (pos 0) ≡ a +ℤ pos k }
    ensures none { (setting : Setting) (r : Range)
        → index_value setting r.upto <ℤ index_value setting r.from → values setting r ≡ [] }
    ensures one { (setting : Setting) (r : Range)
        → index_value setting r.from ≡ index_value setting r.upto → values setting r ≡ index_value setting r.from ∷ [] }
{}

/// A line of version 1 stands for itself, and has no index and no range to judge.
pub fn version_one()
    ensures itself { (words : List Name) (s : Indexed Tree) → IsPlainLine s
        → expand words s ≡ itself_line words s ∷ [] }
    ensures places { (s : Indexed Tree) → IsPlainLine s → places s ≡ [] }
{}
