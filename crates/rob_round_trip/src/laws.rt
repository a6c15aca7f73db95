//! Laws of canonical texts, of the names of a model that a text reads as, and of texts without sets.

ghost use Rattle.std.specs.Prelude.{◌≡◌, ℕ, ◌+◌, ◌≤◌, ◌<◌, ◌^◌, ◌++◌, ◌∷◌, [], List, Option, Some, length, map};
ghost use Rattle.rob_lex.specs.Offences.{AreTokens, most_open, most_tokens};
ghost use Rattle.rob_lex.specs.declared.token.Token.{Token};
ghost use Rattle.rob_meaning.specs.Expressions.{Expression};
ghost use Rattle.rob_meaning.specs.JointMeaning.{HasOneSet};
ghost use Rattle.rob_meaning.specs.Places.{Each};
ghost use Rattle.rob_meaning.specs.WellFormed.{IsModel};
ghost use Rattle.rob_meaning.specs.Named.{HasDistinctMembers, IsNamed, declared_names};
ghost use Rattle.rob_meaning.specs.RobustModel.{RobustModel};
ghost use Rattle.rob_model.specs.Limits.{IsWithinLimits};
ghost use Rattle.rob_write.specs.Pages.{Written};
ghost use Rattle.rob_write.specs.WrittenModel.{written_model};
ghost use Rattle.rob_write.specs.ExpressionWords.{Naming, naming_of};
ghost use Rattle.rob_write.specs.Canonical.{IsNotOver, lines_alone, lines_of as canonical_lines_of, model_text};
ghost use Rattle.rob_index.specs.Counting.{line_tokens, lines_tokens};
ghost use Rattle.rob_index.specs.Depths.{line_depth};
ghost use Rattle.rob_index.specs.Reading.{one};
ghost use Rattle.rob_syntax.specs.Symbols.{lines_of, words_of};
ghost use Rattle.rob_syntax.specs.Versions.{text_lines};
ghost use Rattle.rob_parse.specs.Building.{FitsStatement};
ghost use Rattle.rob_round_trip.specs.Lines.{AreReadable, CountsSetsFromOne, canonical_line};
ghost use Rattle.rob_round_trip.specs.Shown.{shown};
ghost use Rattle.rob_parse.specs.Modelled.{EndsInSet, HasNoOver, NamesNoSet, ReadsModel, written_alone};
ghost use Rattle.rob_round_trip.specs.Pages.{IsLine, IsReadAs, IsShallow, IsToken, IsWritable, ended, page_text, symbols_on, words_on};
ghost use Rattle.rob_syntax.specs.Names.{IsSpelled};
ghost use Rattle.rob_round_trip.specs.Readable.{AreKnown, AreDeclarable, AreReadBack, HasByName, IsPlaced, IsReadable, IsReadableModel, IsReadBack};
ghost use Rattle.rob_rules.specs.declared.sort.Sort.{Sort};
ghost use Rattle.rob_syntax.specs.declared.syntax.Statement.{Statement};
ghost use Rattle.rob_rules.specs.Degrees.{sort_at};
ghost use Rattle.rob_parse.specs.Written.{word_of};
ghost use Rattle.rob_parse.specs.Models.{model_of};
ghost use Rattle.rob_rules.specs.Scopes.{Earlier};
ghost use Rattle.rob_rules.specs.Texts.{Reads};

/// Each name of a written parameter, a named set, a variable or an adaptive variable of a text's model stands for that
/// thing. A name that stands for something, a row's among them, is that thing's name in the model. And a name behind
/// `over` at the end of a line stands for a set.
pub fn known()
    ensures names { (limit : ℕ) (text : List ℕ) (words : List (List ℕ)) (list : List Statement)
        (known : Earlier)
        → Reads limit text words list known
        → AreKnown words known.sorts (naming_of (model_of words known.sorts list)) }
    ensures things { (limit : ℕ) (text : List ℕ) (words : List (List ℕ)) (list : List Statement)
        (known : Earlier)
        → Reads limit text words list known → (k : ℕ) (sort : Sort)
        → sort_at known.sorts k ≡ Some sort
        → HasByName (model_of words known.sorts list) (word_of words k) sort }
    ensures over { (limit : ℕ) (text : List ℕ) (words : List (List ℕ)) (list : List Statement)
        (known : Earlier)
        → Reads limit text words list known → Each (EndsInSet known.sorts) list }
{}

/// A text without the word `over` names no set; the model of such statements is what they write, each part as it
/// stands, so that the model of such a text has one set; and the canonical lines of a model without named sets are
/// those of the model itself.
pub fn without_sets()
    ensures statements { (limit : ℕ) (text : List ℕ) (words : List (List ℕ)) (list : List Statement)
        (known : Earlier)
        (read : Reads limit text words list known)
        → HasNoOver (text_lines text (words_of text read.tokens) read.tokens)
        → Each NamesNoSet list }
    ensures model { (words : List (List ℕ)) (sorts : List (Option Sort)) (list : List Statement)
        → Each NamesNoSet list → model_of words sorts list ≡ written_alone words sorts list }
    ensures plain { (limit : ℕ) (text : List ℕ) (m : RobustModel) (read : ReadsModel limit text m)
        → HasNoOver (text_lines text (words_of text read.reads.tokens) read.reads.tokens)
        → HasOneSet m }
    ensures lines { (m : RobustModel) → m.sets ≡ [] → IsPlaced m → canonical_lines_of m
        ≡ lines_alone m }
    ensures no_over { (m : RobustModel) → Each (Each IsNotOver) (lines_alone m) }
{}

/// Lines of words and signs that may be written are read as they were written.
pub fn pages()
    ensures read { (ls : List (List Written)) → Each IsLine ls → length (ended ls) ≤ most_tokens
        → IsReadAs ls }
    ensures only { (ls : List (List Written)) (tokens : List Token) → Each (Each IsToken) ls
        → AreTokens (page_text ls) tokens
        → (words_of (page_text ls) tokens ≡ words_on ls)
        × (lines_of (page_text ls) one (words_on ls) tokens
        ≡ map (symbols_on (words_on ls)) ls ++ [] ∷ []) }
{}

/// What the canonical lines of a model that a text reads as consist of may be written, and the model's names are found
/// in them.
pub fn canonical_words()
    ensures writable { (limit : ℕ) (text : List ℕ) (m : RobustModel) → 1 ≤ limit → limit < 2 ^ 62
        → ReadsModel limit text m → Each (Each IsWritable) (canonical_lines_of m) }
    ensures declarable { (limit : ℕ) (text : List ℕ) (m : RobustModel) → ReadsModel limit text m
        → AreDeclarable (words_on (canonical_lines_of m)) m }
{}

/// An expression that is written is read back, where its names are known.
pub fn expressions()
    ensures read { (limit : ℕ) → limit < 2 ^ 62
        → (words : List (List ℕ)) (sorts : List (Option Sort)) (names : Naming)
        → AreKnown words sorts names
        → (e : Expression) → IsReadable limit names e → IsReadBack words sorts names e }
{}

/// The canonical lines of a model are statements, whose model it is.
pub fn canonical_lines()
    ensures read { (limit : ℕ) → limit < 2 ^ 62
        → (words : List (List ℕ)) (sorts : List (Option Sort)) (m : RobustModel)
        → AreKnown words sorts (naming_of m)
        → AreDeclarable words m → IsReadableModel limit (naming_of m) m
        → AreReadBack words sorts m }
{}

/// A model that a text reads as is readable: its numbers are within the limit, and its expressions are the grammar's.
pub fn readable()
    ensures model { (limit : ℕ) (text : List ℕ) (m : RobustModel) → 1 ≤ limit
        → ReadsModel limit text m
        → IsReadableModel limit (naming_of m) m }
{}

/// The canonical text of a readable, well-named model within the limits, whose lines are few and shallow, is read as
/// that model.
pub fn canonical_reading()
    ensures read { (limit : ℕ) (m : RobustModel) → 1 ≤ limit → limit < 2 ^ 62
        → IsReadableModel limit (naming_of m) m
        → IsModel (written_model m) → IsNamed m → Each IsSpelled (declared_names m)
        → Each HasDistinctMembers (written_model m).set_lines → IsWithinLimits m
        → Each (IsShallow 0) (canonical_lines_of m)
        → length (ended (canonical_lines_of m)) ≤ most_tokens → ReadsModel limit (model_text m) m }
{}

/// A model that a text reads as is read again from its canonical text.
pub fn round_trip()
    ensures again { (limit : ℕ) (text : List ℕ) (m : RobustModel) → 1 ≤ limit → limit < 2 ^ 62
        → ReadsModel limit text m
        → ReadsModel limit (model_text m) m }
{}

/// The canonical line of a statement has as many tokens as rob_index counts for it, its line end among them.
pub fn counted_lines()
    ensures line { (limit : ℕ) (words : List (List ℕ)) (sorts : List (Option Sort)) (names : Naming)
        → CountsSetsFromOne sorts → (s : Statement)
        → FitsStatement limit s → AreReadable limit sorts names s → EndsInSet sorts s
        → length (canonical_line words sorts names s) + 1 ≡ line_tokens limit (shown words s) }
    ensures lines { (limit : ℕ) (words : List (List ℕ)) (sorts : List (Option Sort))
        (names : Naming)
        → CountsSetsFromOne sorts → (list : List Statement)
        → Each (FitsStatement limit) list → Each (AreReadable limit sorts names) list
        → Each (EndsInSet sorts) list
        → length (ended (map (canonical_line words sorts names) list))
        ≡ lines_tokens limit (map (shown words) list) }
{}

/// The canonical line of a statement is shallow, where it opens few parentheses at once as rob_index says.
pub fn shallow_lines()
    ensures line { (limit : ℕ) (words : List (List ℕ)) (sorts : List (Option Sort)) (names : Naming)
        (s : Statement)
        → AreReadable limit sorts names s → line_depth (shown words s) ≤ most_open
        → IsShallow 0 (canonical_line words sorts names s) }
{}
