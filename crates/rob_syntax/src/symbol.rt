//! The symbols of the grammar: what is left of a token once words and digits are numbers.

ghost use Rattle.std.specs.Prelude.{◌≡◌, ℕ, List, ◌∷◌, MatchOption};
ghost use Rattle.rob_syntax.specs.declared.symbol.Symbol.{Symbol};
ghost use Rattle.rob_syntax.specs.declared.symbol.Symbol.TheVariants.{Digits, Name, Reserved, Sign};

/// The signs.
#[derive(Clone, Copy, PartialEq, Eq)]
pub enum Mark {
    Plus,
    Minus,
    Star,
    Slash,
    Open,
    Close,
    OpenBracket,
    CloseBracket,
    Comma,
    Colon,
    Equal,
    AtMost,
    AtLeast,
}

/// The words that are no names. Both spellings of a goal are one keyword.
#[derive(Clone, Copy, PartialEq, Eq)]
pub enum Keyword {
    Uncertain,
    Set,
    Budget,
    Var,
    Adaptive,
    Minimise,
    Maximise,
    Row,
    In,
    At,
    By,
    Over,
    /// Of version 2, as the two behind it: no statement of version 1 has them.
    Sum,
    For,
    To,
    /// It names the version, and no statement has it.
    Model,
    /// A word that no statement has: `objective` and `tau`, and in version 1 one that is too long for a name.
    Unused,
}

/// A token as the grammar sees it.
#[derive(Clone, Copy)]
pub enum Symbol {
    /// A name: its number among the different words of the text, in order of their first places.
    Name(usize),
    /// A run of digits: its value, or 2^62 where that is less.
    Digits(u64),
    Sign(Mark),
    Reserved(Keyword),
}

/// The symbols behind the sign, if it is the first.
pub fn behind_mark(symbols: &[Symbol], mark: Mark) -> Option<&[Symbol]>
    ensures read { MatchOption result
        ((rest : List Symbol) → symbols.now ≡ Sign mark ∷ rest → ⊥)
        (λ rest. symbols.now ≡ Sign mark ∷ rest.now) }
{
    match symbols {
        [Symbol::Sign(first), rest @ ..] if *first == mark => Some(rest),
        _ => None,
    }
}

/// The symbols behind the keyword, if it is the first.
pub fn behind_word(symbols: &[Symbol], word: Keyword) -> Option<&[Symbol]>
    ensures read { MatchOption result
        ((rest : List Symbol) → symbols.now ≡ Reserved word ∷ rest → ⊥)
        (λ rest. symbols.now ≡ Reserved word ∷ rest.now) }
{
    match symbols {
        [Symbol::Reserved(first), rest @ ..] if *first == word => Some(rest),
        _ => None,
    }
}

/// The digits that are the first symbol, and the symbols behind them.
pub fn front_digits(symbols: &[Symbol]) -> Option<(u64, &[Symbol])>
    ensures read { MatchOption result
        ((value : ℕ) (rest : List Symbol) → symbols.now ≡ Digits value ∷ rest → ⊥)
        (λ p. symbols.now ≡ Digits p.0 ∷ p.1.now) }
{
    match symbols {
        [Symbol::Digits(value), rest @ ..] => Some((*value, rest)),
        _ => None,
    }
}

/// The name that is the first symbol, and the symbols behind it.
pub fn front_name(symbols: &[Symbol]) -> Option<(usize, &[Symbol])>
    ensures read { MatchOption result
        ((name : ℕ) (rest : List Symbol) → symbols.now ≡ Name name ∷ rest → ⊥)
        (λ p. symbols.now ≡ Name p.0 ∷ p.1.now) }
{
    match symbols {
        [Symbol::Name(name), rest @ ..] => Some((*name, rest)),
        _ => None,
    }
}
