//! Which words are keywords, and which bytes are signs.

ghost use Rattle.std.specs.Prelude.{◌≡◌, drop};
ghost use Rattle.rob_syntax.specs.Symbols.{keywords, keyword_among};
ghost use Rattle.rob_syntax.specs.Symbols as spec;

use crate::symbol::{Keyword, Mark};

/// The keyword that a word is.
pub fn keyword_of(word: &[u8]) -> Option<Keyword>
    ensures keyword { result ≡ keyword_among keywords word.now }
{
    if word == b"uncertain".as_slice() {
        return Some(Keyword::Uncertain);
    }
    if word == b"set".as_slice() {
        return Some(Keyword::Set);
    }
    if word == b"budget".as_slice() {
        return Some(Keyword::Budget);
    }
    if word == b"var".as_slice() {
        return Some(Keyword::Var);
    }
    if word == b"adaptive".as_slice() {
        return Some(Keyword::Adaptive);
    }
    goal_or_part(word)
}

/// A goal, a row, or a word inside a statement.
fn goal_or_part(word: &[u8]) -> Option<Keyword>
    ensures keyword { result ≡ keyword_among (drop 5 keywords) word.now }
{
    if word == b"minimise".as_slice() || word == b"minimize".as_slice() {
        return Some(Keyword::Minimise);
    }
    if word == b"maximise".as_slice() || word == b"maximize".as_slice() {
        return Some(Keyword::Maximise);
    }
    if word == b"row".as_slice() {
        return Some(Keyword::Row);
    }
    if word == b"in".as_slice() {
        return Some(Keyword::In);
    }
    if word == b"at".as_slice() {
        return Some(Keyword::At);
    }
    if word == b"by".as_slice() {
        return Some(Keyword::By);
    }
    if word == b"over".as_slice() {
        return Some(Keyword::Over);
    }
    later(word)
}

/// A word that no statement of version 1 has.
fn later(word: &[u8]) -> Option<Keyword>
    ensures keyword { result ≡ keyword_among (drop 14 keywords) word.now }
{
    if word == b"objective".as_slice() || word == b"tau".as_slice() {
        return Some(Keyword::Unused);
    }
    if word == b"model".as_slice() {
        return Some(Keyword::Model);
    }
    if word == b"sum".as_slice() {
        return Some(Keyword::Sum);
    }
    if word == b"for".as_slice() {
        return Some(Keyword::For);
    }
    if word == b"to".as_slice() {
        return Some(Keyword::To);
    }
    None
}

/// The sign that begins with this byte.
pub fn mark_of(first: u8) -> Mark
    ensures mark { result ≡ spec.mark_of first }
{
    match first {
        b'+' => Mark::Plus,
        b'-' => Mark::Minus,
        b'*' => Mark::Star,
        b'/' => Mark::Slash,
        b'(' => Mark::Open,
        b')' => Mark::Close,
        b'[' => Mark::OpenBracket,
        b']' => Mark::CloseBracket,
        b',' => Mark::Comma,
        b':' => Mark::Colon,
        b'=' => Mark::Equal,
        b'<' => Mark::AtMost,
        _ => Mark::AtLeast,
    }
}

/// The first byte, or 0.
pub fn first_of(bytes: &[u8]) -> u8
    ensures first { result ≡ spec.first_of bytes.now }
{
    match bytes {
        [first, ..] => *first,
        [] => 0,
    }
}
