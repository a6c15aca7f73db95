//! What is counted and placed, in the definitions' own words.

ghost use Rattle.std.specs.Prelude.{◌≡◌, ℕ, ℤ, nat_abs, List, []};
ghost use Rattle.rob_index.specs.Counting.{plain_tokens, lines_tokens};
ghost use Rattle.rob_index.specs.Expansion.{expand, expand_tree};
ghost use Rattle.rob_index.specs.Fast.{setting_of};
ghost use Rattle.rob_index.specs.Forms.{Ends, extensions};
ghost use Rattle.rob_index.specs.Statements.{Name, Tree, Indexed};
ghost use Rattle.rob_expand.specs.declared.line.Line.{Line};
ghost use Rattle.rob_expand.specs.Count.{tree_left};
ghost use Rattle.rob_expand.specs.Lines.{line_left, rest_of};
ghost use Rattle.rob_expand.specs.Placed.{Placed};
ghost use Rattle.rob_expand.specs.Placing.{placed_tree};
ghost use Rattle.rob_settings.specs.Room.{left_of};
ghost use Rattle.rob_settings.specs.Settings.{all_left};
ghost use Rattle.rob_expand.specs.Standing.{plain_at};
ghost use Rattle.rob_expand.specs.Statements.{IsLine};

/// What is left behind an expression is what is left behind the canonical tokens of what it stands for.
pub fn tokens_left()
    ensures tokens { (limit : ℕ) (words : List Name) (print : ℤ → ℕ) (p : Placed) (vs : List ℤ)
        (room : ℕ)
        → rest_of (tree_left limit p vs room) ≡ left_of (plain_tokens limit (plain_at words print p vs)) room }
{}

/// A placed expression stands for what the expression stands for, in the setting with these values.
pub fn stands_for()
    ensures plain { (words : List Name) (names : List ℕ) (t : Tree) (vs : List ℤ)
        → plain_at words nat_abs (placed_tree names t) vs ≡ expand_tree words t (setting_of names vs) }
{}

/// What is left behind the lines of all settings is what is left behind the canonical tokens of all plain statements.
pub fn lines_left()
    ensures tokens { (limit : ℕ) (words : List Name) (s : Indexed Tree) (ranges : List Ends)
        (line : Line)
        → IsLine limit s ranges line → (room : ℕ)
        → all_left (line_left line) (extensions ranges []) room ≡ left_of (lines_tokens limit (expand words s)) room }
{}
