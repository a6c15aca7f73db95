//! Laws of the definitions: each text has one reading; its tokens are slices of it, in order; its lines are shallow.

ghost use Rattle.std.specs.Prelude.{◌≡◌, ℕ, ◌≤◌, List, [], length, map};
ghost use Rattle.rob_lex.specs.declared.token.Token.{Token};
ghost use Rattle.rob_lex.specs.Pieces.{Piece, IsPlace};
ghost use Rattle.rob_lex.specs.Places.{start, tokens_of};
ghost use Rattle.rob_lex.specs.Offences.{AreTokens, Breaks, HasReading};
ghost use Rattle.rob_lex.specs.Slices.{InOrder, lexed, lexed_of};
ghost use Rattle.rob_lex.specs.Lines.{AreShallow, paren_lines};

/// Each text has exactly one list of tokens, or breaks exactly one rule at one line.
pub fn one_reading()
    ensures some { (text : List ℕ) → HasReading text }
    ensures list { (text : List ℕ) (a b : List Token) → AreTokens text a → AreTokens text b → a
        ≡ b }
    ensures rule { (text : List ℕ) (rule line rule' line' : ℕ)
        → Breaks text rule line → Breaks text rule' line' → (rule ≡ rule') × (line ≡ line') }
    ensures not_both { (text : List ℕ) (list : List Token) (rule line : ℕ)
        → AreTokens text list → Breaks text rule line → ⊥ }
{}

/// Tokens stand in order, don't overlap and lie inside the text, which has no more of them than bytes.
pub fn in_order()
    ensures order { (text : List ℕ) (list : List Token) → AreTokens text list
        → InOrder 0 text list }
    ensures count { (text : List ℕ) (list : List Token) → AreTokens text list → length list
        ≤ length text }
{}

/// The tokens of a text have the kinds and bytes of its pieces.
pub fn are_slices()
    ensures slices { (text : List ℕ) (pieces : List Piece) → IsPlace text pieces []
        → map (lexed text) (tokens_of start pieces) ≡ lexed_of pieces }
{}

/// On no line of a text that has tokens more than 50 parentheses are open at once, where one directly behind `sum`
/// counts as two.
pub fn shallow()
    ensures lines { (text : List ℕ) (list : List Token)
        → AreTokens text list → AreShallow (paren_lines (map (lexed text) list)) }
{}
