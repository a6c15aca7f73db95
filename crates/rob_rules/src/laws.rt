//! Laws of the definitions: each text has one reading; words that come behind; lines one behind another.

ghost use Rattle.std.specs.Prelude.{◌≡◌, ◌++◌, ◌+◌, ℕ, List, length};
ghost use Rattle.rob_syntax.specs.declared.syntax.Statement.{Statement};
ghost use Rattle.rob_rules.specs.Scopes.{Earlier};
ghost use Rattle.rob_rules.specs.Texts.{Breaks, HasReading, LinesFollow, Reads, SomeBreaks, Stage};
ghost use Rattle.rob_index.specs.Symbols.{Symbol};
ghost use Rattle.rob_index.specs.Reading.{Version, LineFault};
ghost use Rattle.rob_index.specs.Statements as stated;
ghost use Rattle.rob_syntax.specs.Numbered.{numbered};
ghost use Rattle.rob_rules.specs.declared.fault.Fault.{Fault};
ghost use Rattle.rob_rules.specs.Degrees.{sort_at};
ghost use Rattle.rob_rules.specs.Faults.{expressions, has_fault};
ghost use Rattle.rob_rules.specs.Growing.{AreAmong};
ghost use Rattle.rob_rules.specs.Links.{AreLinked};
ghost use Rattle.rob_rules.specs.RealTrees.{IsReal};
ghost use Rattle.rob_meaning.specs.Places.{Each};
ghost use Rattle.rob_index.specs.Expansion.{expand};
ghost use Rattle.rob_index.specs.Lines.{statement_of};
ghost use Rattle.rob_index.specs.Grammar.{Expr};
ghost use Rattle.rob_index.specs.Membership.{Among};
ghost use Rattle.rob_rules.specs.Scopes.{start};
ghost use Rattle.rob_rules.specs.Names.{names_of};

/// Each text of either version reads as exactly one list of statements, or breaks exactly one rule at one line.
pub fn one_text()
    ensures some { (limit : ℕ) (text : List ℕ) → HasReading limit text }
    ensures statements { (limit : ℕ) (text : List ℕ)
        (words : List (List ℕ)) (list : List Statement) (known : Earlier)
        (words' : List (List ℕ)) (list' : List Statement) (known' : Earlier)
        → Reads limit text words list known → Reads limit text words' list' known'
        → (words ≡ words') × (list ≡ list') × (known ≡ known') }
    ensures rule { (limit : ℕ) (text : List ℕ) (rule line rule' line' : ℕ)
        → Breaks limit text rule line → Breaks limit text rule' line'
        → (rule ≡ rule') × (line ≡ line') }
    ensures not_both { (limit : ℕ) (text : List ℕ)
        (words : List (List ℕ)) (list : List Statement) (known : Earlier) (rule line : ℕ)
        → Reads limit text words list known → Breaks limit text rule line → ⊥ }
{}

/// Words may come behind those that there are: names keep their numbers, and faults go by what names stand for, not by
/// how many words there are.
pub fn growing()
    ensures numbers { (words more : List (List ℕ)) (s : stated.Statement)
        → AreAmong words (names_of s)
        → numbered (words ++ more) s ≡ numbered words s }
    ensures faults { (limit : ℕ) (before before' now now' : Earlier)
        → ((k : ℕ) → sort_at before.sorts k ≡ sort_at before'.sorts k)
        → ((k : ℕ) → sort_at now.sorts k ≡ sort_at now'.sorts k)
        → now.sizes ≡ now'.sizes → now.goal ≡ now'.goal
        → (s : Statement) (f : Fault)
        → has_fault limit before now s f ≡ has_fault limit before' now' s f }
{}

/// The plain statements of a text that reads stand one behind another, each without a fault.
pub fn linked()
    ensures linked { (limit : ℕ) (text : List ℕ) (words : List (List ℕ)) (list : List Statement)
        (known : Earlier)
        (r : Reads limit text words list known)
        → AreLinked limit words (start (length words)) r.plain known }
    ensures names { (limit : ℕ) (text : List ℕ) (words : List (List ℕ)) (list : List Statement)
        (known : Earlier)
        (r : Reads limit text words list known) → Each (λ p. AreAmong words (names_of p)) r.plain }
{}

/// The trees of the plain statements that a line stands for are as a reader makes them.
pub fn shapes()
    ensures real { (own words : List (List ℕ)) (line : stated.Indexed Expr) (p : stated.Statement)
        → Among p (expand own (statement_of line)) → Each IsReal (expressions (numbered words p)) }
{}

/// Lines that read, and lines behind them: they read together, or a bad line behind is bad of all.
pub fn joining()
    ensures reading { (limit : ℕ) (words : List (List ℕ)) (v : Version) (xs : List (List Symbol))
        (e : Stage limit words v) (a : List stated.Statement) (f : Stage limit words v)
        (ys : List (List Symbol)) (b : List stated.Statement) (g : Stage limit words v)
        → LinesFollow limit words v e xs a f → LinesFollow limit words v f ys b g
        → LinesFollow limit words v e (xs ++ ys) (a ++ b) g }
    ensures breaking { (limit : ℕ) (words : List (List ℕ)) (v : Version) (xs : List (List Symbol))
        (e : Stage limit words v) (a : List stated.Statement) (f : Stage limit words v)
        (ys : List (List Symbol)) (fault : LineFault Fault) (n : ℕ)
        → LinesFollow limit words v e xs a f → SomeBreaks limit words v f ys fault n
        → SomeBreaks limit words v e (xs ++ ys) fault (length xs + n) }
{}
