//! Which lines read as which plain statements.

ghost use Rattle.std.specs.Prelude.{◌≡◌, ℕ, ◌+◌, ◌≤◌, ◌⊎◌, Bool, List};
ghost use Rattle.rob_algebra.specs.Items.{Each};
ghost use Rattle.rob_index.specs.Counting.{lines_tokens};
ghost use Rattle.rob_index.specs.Kept.{IsOfLine};
ghost use Rattle.rob_index.specs.Rules.{most_tokens};
ghost use Rattle.rob_index.specs.Symbols.{Symbol};
ghost use Rattle.rob_index.specs.Statements.{Name, Statement};
ghost use Rattle.rob_index.specs.Reading.{Version, IsOf, LineFault, State, Follows, ReadsLines, BreaksLines};

/// Lines of either version read as exactly one list of plain statements, or break exactly one rule
/// at one line, whatever the later faults of plain statements are.
pub fn one_reading<Known, Later>()
    ensures some { (v : Version) (limit : ℕ) (words : List Name) (order : List Later)
        (has_later : (before now : Known) → Statement → Later → Bool) (step : Known → Statement → Known)
        (is_declared : Known → ℕ → Bool) (has_goal : Known → Bool)
        (e : State limit words Known Later order has_later step is_declared (IsOf v)) (lines : List (List Symbol))
        → ((list : List Statement) × (last : State limit words Known Later order has_later step is_declared (IsOf v))
        × ReadsLines limit words Known Later order has_later step is_declared (IsOf v) has_goal e lines list last)
        ⊎ ((fault : LineFault Later) × (n : ℕ)
        × BreaksLines limit words Known Later order has_later step is_declared (IsOf v) has_goal e lines fault n) }
    ensures list { (v : Version) (limit : ℕ) (words : List Name) (order : List Later)
        (has_later : (before now : Known) → Statement → Later → Bool) (step : Known → Statement → Known)
        (is_declared : Known → ℕ → Bool) (has_goal : Known → Bool)
        (e : State limit words Known Later order has_later step is_declared (IsOf v)) (lines : List (List Symbol))
        (l : List Statement) (f : State limit words Known Later order has_later step is_declared (IsOf v))
        (l' : List Statement) (f' : State limit words Known Later order has_later step is_declared (IsOf v))
        → ReadsLines limit words Known Later order has_later step is_declared (IsOf v) has_goal e lines l f
        → ReadsLines limit words Known Later order has_later step is_declared (IsOf v) has_goal e lines l' f'
        → (l ≡ l') × (f ≡ f') }
    ensures fault { (v : Version) (limit : ℕ) (words : List Name) (order : List Later)
        (has_later : (before now : Known) → Statement → Later → Bool) (step : Known → Statement → Known)
        (is_declared : Known → ℕ → Bool) (has_goal : Known → Bool)
        (e : State limit words Known Later order has_later step is_declared (IsOf v)) (lines : List (List Symbol))
        (g g' : LineFault Later) (n n' : ℕ)
        → BreaksLines limit words Known Later order has_later step is_declared (IsOf v) has_goal e lines g n
        → BreaksLines limit words Known Later order has_later step is_declared (IsOf v) has_goal e lines g' n'
        → (g ≡ g') × (n ≡ n') }
    ensures not_both { (v : Version) (limit : ℕ) (words : List Name) (order : List Later)
        (has_later : (before now : Known) → Statement → Later → Bool) (step : Known → Statement → Known)
        (is_declared : Known → ℕ → Bool) (has_goal : Known → Bool)
        (e : State limit words Known Later order has_later step is_declared (IsOf v)) (lines : List (List Symbol))
        (l : List Statement) (f : State limit words Known Later order has_later step is_declared (IsOf v))
        (g : LineFault Later) (n : ℕ)
        → ReadsLines limit words Known Later order has_later step is_declared (IsOf v) has_goal e lines l f
        → BreaksLines limit words Known Later order has_later step is_declared (IsOf v) has_goal e lines g n → ⊥ }
{}

/// Of the plain statements that lines read as the canonical tokens are counted, and are not too many; and each is of
/// the expansion of one of the lines, on which no fault of indices holds.
pub fn kept<Known, Later>()
    ensures counted { (v : Version) (limit : ℕ) (words : List Name) (order : List Later)
        (has_later : (before now : Known) → Statement → Later → Bool) (step : Known → Statement → Known)
        (is_declared : Known → ℕ → Bool) (lines : List (List Symbol))
        (e : State limit words Known Later order has_later step is_declared (IsOf v)) (list : List Statement)
        (f : State limit words Known Later order has_later step is_declared (IsOf v))
        → Follows limit words Known Later order has_later step is_declared (IsOf v) e lines list f
        → f.total ≡ e.total + lines_tokens limit list }
    ensures few { (v : Version) (limit : ℕ) (words : List Name) (order : List Later)
        (has_later : (before now : Known) → Statement → Later → Bool) (step : Known → Statement → Known)
        (is_declared : Known → ℕ → Bool) (lines : List (List Symbol))
        (e : State limit words Known Later order has_later step is_declared (IsOf v)) (list : List Statement)
        (f : State limit words Known Later order has_later step is_declared (IsOf v))
        → Follows limit words Known Later order has_later step is_declared (IsOf v) e lines list f
        → e.total ≤ most_tokens → f.total ≤ most_tokens }
    ensures lines { (v : Version) (limit : ℕ) (words : List Name) (order : List Later)
        (has_later : (before now : Known) → Statement → Later → Bool) (step : Known → Statement → Known)
        (is_declared : Known → ℕ → Bool) (lines : List (List Symbol))
        (e : State limit words Known Later order has_later step is_declared (IsOf v)) (list : List Statement)
        (f : State limit words Known Later order has_later step is_declared (IsOf v))
        → Follows limit words Known Later order has_later step is_declared (IsOf v) e lines list f
        → Each (IsOfLine limit words Known is_declared (IsOf v) lines) list }
{}
