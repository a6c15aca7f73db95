//! Which names the plain statements have that a statement with indices stands for.

ghost use Rattle.std.specs.Prelude.{◌≡◌, ℕ, ◌≤◌, Bool, true, false, List, length};
ghost use Rattle.std.specs.List.{list_any};
ghost use Rattle.rob_algebra.specs.Items.{Each};
ghost use Rattle.rob_index.specs.Statements.{Name, Statement, Ref, Tree, Indexed};
ghost use Rattle.rob_index.specs.Counting.{line_tokens};
ghost use Rattle.rob_index.specs.Depths.{line_depth};
ghost use Rattle.rob_index.specs.Expansion.{expand};
ghost use Rattle.rob_index.specs.Membership.{Among};
ghost use Rattle.rob_index.specs.Refs.{EachNameOf, EachRefOf, IfName, IsNameOf};
ghost use Rattle.rob_index.specs.Reading.{Version, IsOf};
ghost use Rattle.rob_index.specs.Symbols.{Symbol};
ghost use Rattle.rob_index.specs.Renaming.{renamed};
ghost use Rattle.rob_index.specs.Places.{places};
ghost use Rattle.rob_index.specs.Rules.{is_out, is_no_statement, longest_name};

/// Where no index is out of bounds, each name of an expansion is that of a ref of the statement in a setting, where the
/// refs may be any that pass a test, as those of a line do whose names pass one; and where the late part of the rule on
/// statements is kept, none is too long.
pub fn names()
    ensures refs { (words : List Name) (test : Ref → Bool) (s : Indexed Tree)
        → EachRefOf (λ r. test r ≡ true) s
        → list_any is_out (places s) ≡ false
        → (p : Statement) → Among p (expand words s) → EachNameOf (IsNameOf words (λ r. test r ≡ true)) p }
    ensures of_line { (test : ℕ → Bool) (v : Version) (symbols : List Symbol) (s : Indexed Tree)
        → IsOf v symbols s
        → Each (IfName (λ k. test k ≡ true)) symbols → EachRefOf (λ r. test r.name ≡ true) s }
    ensures short { (p : Statement) → is_no_statement p ≡ false
        → EachNameOf (λ n. length n ≤ longest_name) p }
{}

/// How many tokens a canonical line has, and how many parentheses it opens, doesn't depend on its names.
pub fn renaming()
    ensures tokens { (rename : Name → Name) (limit : ℕ) (s : Statement)
        → line_tokens limit (renamed rename s) ≡ line_tokens limit s }
    ensures depth { (rename : Name → Name) (s : Statement) → line_depth (renamed rename s)
        ≡ line_depth s }
{}
