//! What a line says of its canonical text.

ghost use Rattle.std.specs.Prelude.{◌≡◌, ℕ, ◌+◌, ◌≤◌, ◌++◌, max, Bool, false, List, [], length, map};
ghost use Rattle.rob_index.specs.Symbols.{Symbol};
ghost use Rattle.rob_index.specs.Statements.{Name, Statement, Tree, Indexed};
ghost use Rattle.rob_index.specs.Grammar.{Expr, spell_expr, tree_expr};
ghost use Rattle.rob_index.specs.Lines.{spell_line, statement_of};
ghost use Rattle.rob_index.specs.Settings.{Setting};
ghost use Rattle.rob_index.specs.Expansion.{expand, expand_tree, statement_at};
ghost use Rattle.rob_index.specs.Membership.{Among};
ghost use Rattle.rob_index.specs.Reading.{Version, IsOf};
ghost use Rattle.rob_index.specs.PlainLines.{IsPlainLine};
ghost use Rattle.rob_index.specs.Counting.{line_tokens};
ghost use Rattle.rob_index.specs.Depths.{bare, deepest, depth, expr_open, line_depth, line_open};

/// The canonical text of an expansion opens no more parentheses at once than the line does, where
/// the one behind `sum` counts as two.
pub fn open_parentheses()
    ensures depth { (words : List Name) (e : Expr) (setting : Setting)
        → depth (expand_tree words (tree_expr e) setting) ≤ expr_open e }
    // What is open as the tokens are read from the left, where this much is open in front of the expression.
    ensures line { (e : Expr) (d : ℕ) (open_ones : List ℕ) (rest : List Symbol)
        → deepest d open_ones false (spell_expr e ++ rest) ≡ max (d + expr_open e) (deepest d open_ones false rest) }
{}

/// No canonical line of an expansion opens more parentheses at once than the tokens of its line do, from the left.
pub fn open_lines()
    ensures depth { (words : List Name) (l : Indexed Expr) (setting : Setting)
        → line_depth (statement_at words (statement_of l) setting) ≤ line_open l }
    ensures line { (l : Indexed Expr) → deepest 0 [] false (spell_line l) ≡ line_open l }
    ensures expanded { (v : Version) (words : List Name) (symbols : List Symbol) (s : Indexed Tree)
        (p : Statement)
        → IsOf v symbols s → Among p (expand words s) → line_depth p ≤ deepest 0 [] false symbols }
    // Of a symbol only this counts: whether it is `sum`, opens, or closes.
    ensures bare { (d : ℕ) (open_ones : List ℕ) (b : Bool) (symbols : List Symbol)
        → deepest d open_ones b (map bare symbols) ≡ deepest d open_ones b symbols }
{}

/// The canonical text of a line of version 1 has no more tokens than the line, line ends included:
/// no text of version 1 that has few enough tokens breaks the rule on canonical tokens.
pub fn tokens_of_version_one()
    ensures tokens { (limit : ℕ) (words : List Name) (l : Indexed Expr) (setting : Setting)
        → IsPlainLine (statement_of l)
        → line_tokens limit (statement_at words (statement_of l) setting) ≤ length (spell_line l) + 1 }
{}
