//! What a statement costs, in canonical tokens.

ghost use Rattle.std.specs.Prelude.{ℕ, ◌*◌, ◌≤◌, List, length, map};
ghost use Rattle.rob_index.specs.Statements.{Name, Statement, Range, Tree, Indexed};
ghost use Rattle.rob_index.specs.Statements.{ranged};
ghost use Rattle.rob_index.specs.Grammar.{Expr, tree_expr};
ghost use Rattle.rob_index.specs.Settings.{Setting, values};
ghost use Rattle.rob_index.specs.Expansion.{expand_tree};
ghost use Rattle.rob_index.specs.Counting.{plain_tokens, lines_tokens, IsReal};

/// Each value that a range runs through costs a token, and each setting of a statement two. No sum
/// and no product of a line is empty.
pub fn costs()
    ensures values { (limit : ℕ) (words : List Name) (r : Range) (t : Tree) (setting : Setting)
        → IsReal t
        → length (values setting r) ≤ plain_tokens limit (expand_tree words (ranged r t) setting) }
    ensures real { (e : Expr) → IsReal (tree_expr e) }
    ensures settings { (limit : ℕ) (words : List Name) (s : Indexed Tree)
        (make : Setting → Statement)
        (es : List Setting)
        → 2 * length es ≤ lines_tokens limit (map make es) }
{}
