//! Lines and what they are.

ghost use Rattle.std.specs.Prelude.{◌≡◌, ◌⊎◌, List};
ghost use Rattle.rob_index.specs.Symbols.{Symbol};
ghost use Rattle.rob_index.specs.Statements.{Tree, Indexed};
ghost use Rattle.rob_index.specs.Grammar.{Expr};
ghost use Rattle.rob_index.specs.Lines.{IsLine, IsStatement, spell_line};
ghost use Rattle.rob_index.specs.Reading.{Version, IsOf};

/// The grammar is unambiguous, and it is settled whether some symbols are a line of it.
pub fn one_line()
    ensures line { (k l : Indexed Expr) → IsLine k → IsLine l → spell_line k ≡ spell_line l → k
        ≡ l }
    ensures statement { (symbols : List Symbol) (s t : Indexed Tree)
        → IsStatement symbols s → IsStatement symbols t → s ≡ t }
    ensures settled { (symbols : List Symbol) → ((s : Indexed Tree) × IsStatement symbols s)
        ⊎ ((s : Indexed Tree) → IsStatement symbols s → ⊥) }
{}

/// So it is of either version.
pub fn one_of_either_version()
    ensures one { (v : Version) (symbols : List Symbol) (s t : Indexed Tree)
        → IsOf v symbols s → IsOf v symbols t → s ≡ t }
    ensures settled { (v : Version) (symbols : List Symbol)
        → ((s : Indexed Tree) × IsOf v symbols s)
        ⊎ ((s : Indexed Tree) → IsOf v symbols s → ⊥) }
{}
