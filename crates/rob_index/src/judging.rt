//! Which rule of indices decides, and how that is found.

ghost use Rattle.std.specs.Prelude.{◌≡◌, ℕ, ◌+◌, ◌≤◌, ℤ, ◌≤ℤ◌, Bool, true, false, List, length, Some, None};
ghost use Rattle.std.specs.List.{find};
ghost use Rattle.rob_index.specs.Statements.{Name, Statement, Tree, Indexed};
ghost use Rattle.rob_index.specs.Counting.{line_tokens};
ghost use Rattle.rob_index.specs.PlainLines.{IsPlainLine, itself_line};
ghost use Rattle.rob_index.specs.Refs.{EachNameOf, HasMember};
ghost use Rattle.rob_index.specs.Places.{Inside};
ghost use Rattle.rob_index.specs.Rules.{IndexFault, is_long, is_no_statement, is_out, has_fault, in_order, longest_name, most_tokens};
ghost use Rattle.rob_index.specs.Forms.{Form, Ends, AreWithin, AreConstant, value_of, greatest, all_run, is_dead, from_ends, reaches, reaches_plainly};
ghost use Rattle.rob_index.specs.Fast.{is_long_fast, is_out_fast};
ghost use Rattle.rob_index.specs.Search.{has_room, named};

/// The greatest value of a form over nested ranges, by back substitution: it is never passed, and it
/// is reached where each range has a value whatever the values around it.
pub fn greatest_value()
    ensures never_passed { (rs : List Ends) (f : Form) (xs : List ℤ)
        → AreWithin rs xs → value_of f xs ≤ℤ greatest rs f }
    ensures reached { (rs : List Ends) (f : Form) → all_run rs ≡ true
        → (xs : List ℤ) × AreWithin rs xs × (value_of f xs ≡ greatest rs f) }
    ensures dead { (rs : List Ends) (xs : List ℤ) → is_dead rs ≡ true → AreWithin rs xs → ⊥ }
{}

/// Whether a form reaches a bound is decided as by running through all settings, and without running
/// through any where no range names another, or where each always has a value.
pub fn decided_from_the_ends()
    ensures same { (rs : List Ends) (vs : List ℤ) (f : Form) (bound : ℤ)
        → reaches rs vs f bound ≡ reaches_plainly rs vs f bound }
    ensures constant { (rs : List Ends) (f : Form) (bound : ℤ)
        → AreConstant rs → (b : Bool) × (from_ends rs f bound ≡ Some b) }
    ensures running { (rs : List Ends) (f : Form) (bound : ℤ)
        → all_run rs ≡ true → is_dead rs ≡ false → (b : Bool) × (from_ends rs f bound ≡ Some b) }
{}

/// Whether a range is too long somewhere, and whether an index is out of bounds somewhere, is decided as by running
/// through all settings around it.
pub fn places_from_the_ends()
    ensures long { (i : Inside) → is_long i ≡ is_long_fast i }
    ensures out { (i : Inside) → is_out i ≡ is_out_fast i }
{}

/// The fault that is named of a line is one that the line has. Where its expansion fits behind the lines before, it is
/// the first; where it doesn't, some fault is named.
pub fn named_of_a_line()
    ensures first { (limit : ℕ) (words : List Name) (is_declared : ℕ → Bool) (total : ℕ)
        (s : Indexed Tree)
        → has_room limit words is_declared total s ≡ true
        → named limit words is_declared total s ≡ find (has_fault limit words is_declared total s) in_order }
    ensures some { (limit : ℕ) (words : List Name) (is_declared : ℕ → Bool) (total : ℕ)
        (s : Indexed Tree)
        → has_room limit words is_declared total s ≡ false
        → (fault : IndexFault) × (named limit words is_declared total s ≡ Some fault)
        × (has_fault limit words is_declared total s fault ≡ true) }
{}

/// A line of version 1 has no fault of indices, where its canonical tokens are few enough behind the lines before;
/// and a plain statement whose names are short is one, where a budget has a member.
pub fn plain_line()
    ensures faultless { (limit : ℕ) (words : List Name) (is_declared : ℕ → Bool) (total : ℕ)
        (s : Indexed Tree)
        → IsPlainLine s → total + line_tokens limit (itself_line words s) ≤ most_tokens
        → is_no_statement (itself_line words s) ≡ false → named limit words is_declared total s ≡ None }
    ensures statement { (p : Statement) → EachNameOf (λ n. length n ≤ longest_name) p → HasMember p
        → is_no_statement p ≡ false }
{}
