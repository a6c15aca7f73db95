//! Laws that join texts of either version, as rob_index has them, with canonical texts.

ghost use Rattle.std.specs.Prelude.{◌≡◌, ℕ, ◌≤◌, false, List, [], Option, length, map};
ghost use Rattle.rob_index.specs.Counting.{lines_tokens};
ghost use Rattle.rob_index.specs.Depths.{deepest, line_depth};
ghost use Rattle.rob_index.specs.PlainLines.{itself_line};
ghost use Rattle.rob_index.specs.Reading.{Version, IsOf, one};
ghost use Rattle.rob_index.specs.Statements as plain;
ghost use Rattle.rob_index.specs.Statements.{Indexed, Tree};
ghost use Rattle.rob_lex.specs.Offences.{AreTokens, most_open, most_tokens};
ghost use Rattle.rob_lex.specs.declared.token.Token.{Token};
ghost use Rattle.rob_meaning.specs.Places.{Each};
ghost use Rattle.rob_parse.specs.Building.{FitsStatement};
ghost use Rattle.rob_parse.specs.Modelled.{EndsInSet};
ghost use Rattle.rob_round_trip.specs.Lines.{AreReadable, CountsSetsFromOne, canonical_line};
ghost use Rattle.rob_round_trip.specs.Pages.{IsShallow, ended};
ghost use Rattle.rob_round_trip.specs.Shown.{IsFoundAgain};
ghost use Rattle.rob_rules.specs.Reading.{ReadsPlain};
ghost use Rattle.rob_rules.specs.Scopes.{Earlier};
ghost use Rattle.rob_rules.specs.Texts as texts;
ghost use Rattle.rob_rules.specs.declared.sort.Sort.{Sort};
ghost use Rattle.rob_syntax.specs.Numbered.{numbered};
ghost use Rattle.rob_syntax.specs.SeenSymbols.{seen_line};
ghost use Rattle.rob_syntax.specs.Statements.{IsStatement};
ghost use Rattle.rob_syntax.specs.Symbols.{lines_of};
ghost use Rattle.rob_syntax.specs.Versions.{text_lines};
ghost use Rattle.rob_syntax.specs.declared.symbol.Symbol.{Symbol};
ghost use Rattle.rob_syntax.specs.declared.syntax.Statement.{Statement};
ghost use Rattle.rob_write.specs.ExpressionWords.{Naming};

/// On no line of symbols of a text that has tokens, whatever its version, more than 50 parentheses are open at once, as
/// rob_index counts them; nor on one that is read.
pub fn shallow_texts()
    ensures lines { (text : List ℕ) (tokens : List Token) (version : Version)
        (words : List (List ℕ))
        → AreTokens text tokens
        → Each (λ (l : List Symbol). deepest 0 [] false (seen_line l) ≤ most_open)
        (lines_of text version words tokens) }
    ensures read { (text : List ℕ) (tokens : List Token) (words : List (List ℕ))
        → AreTokens text tokens
        → Each (λ (l : List Symbol). deepest 0 [] false (seen_line l) ≤ most_open)
        (text_lines text words tokens) }
{}

/// A statement of version 1, whose names are found again by their words, is a line of rob_index' version 1; and the
/// plain statement that it stands for, with numbers for names, is the statement.
pub fn plain_lines()
    ensures statement { (words : List (List ℕ)) (symbols : List Symbol) (s : Statement)
        → IsStatement symbols s
        → Each (IsFoundAgain words) symbols
        → (t : Indexed Tree) × IsOf one (seen_line symbols) t
        × (numbered words (itself_line words t) ≡ s) }
{}

/// A text of version 1 that reads as statements reads as the same by rob_index' reading of lines of either version.
pub fn plain_texts()
    ensures reads { (limit : ℕ) (text : List ℕ) (words : List (List ℕ)) (list : List Statement)
        (known : Earlier)
        → ReadsPlain limit text words list known → texts.Reads limit text words list known }
{}

/// The canonical lines of plain statements, whose names have numbers, are as many tokens and as deep as rob_index says.
pub fn numbered_lines()
    ensures shallow { (words : List (List ℕ)) (limit : ℕ) (sorts : List (Option Sort))
        (names : Naming)
        (p : plain.Statement) → AreReadable limit sorts names (numbered words p)
        → line_depth p ≤ most_open
        → IsShallow 0 (canonical_line words sorts names (numbered words p)) }
    ensures counted { (words : List (List ℕ)) (limit : ℕ) (sorts : List (Option Sort))
        (names : Naming)
        → CountsSetsFromOne sorts → (ps : List plain.Statement)
        → Each (FitsStatement limit) (map (numbered words) ps)
        → Each (AreReadable limit sorts names) (map (numbered words) ps)
        → Each (EndsInSet sorts) (map (numbered words) ps)
        → length (ended (map (canonical_line words sorts names) (map (numbered words) ps)))
        ≡ lines_tokens limit ps }
{}

/// The canonical lines of what a text of either version reads as are not too many, and none is too deep.
pub fn read_lengths()
    ensures few { (limit : ℕ) (text : List ℕ) (words : List (List ℕ)) (list : List Statement)
        (known : Earlier)
        → texts.Reads limit text words list known → (sorts : List (Option Sort)) (names : Naming)
        → CountsSetsFromOne sorts → Each (FitsStatement limit) list
        → Each (AreReadable limit sorts names) list → Each (EndsInSet sorts) list
        → length (ended (map (canonical_line words sorts names) list)) ≤ most_tokens }
    ensures shallow { (limit : ℕ) (text : List ℕ) (words : List (List ℕ)) (list : List Statement)
        (known : Earlier)
        → texts.Reads limit text words list known → (sorts : List (Option Sort)) (names : Naming)
        → Each (AreReadable limit sorts names) list
        → Each (λ (s : Statement). IsShallow 0 (canonical_line words sorts names s)) list }
{}
