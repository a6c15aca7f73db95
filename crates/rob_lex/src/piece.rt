//! The pieces of a text.

ghost use Rattle.std.specs.Prelude.{◌≡◌, ◌+◌, ◌<◌, ◌≤◌, take, drop, length, MatchOption};
ghost use Rattle.rob_lex.specs.Bytes as classes;
ghost use Rattle.rob_lex.specs.Pieces.{IsRun, BeginsNoPiece};
ghost use Rattle.rob_lex.specs.Found as runs;
ghost use Rattle.rob_lex.specs.Found.{IsFound, BeginsNoShortPiece};

use crate::token::Kind;

/// What a piece of the text is.
#[derive(Clone, Copy, Debug, PartialEq, Eq)]
pub enum Shape {
    Lexeme(Kind),
    /// A byte that separates.
    Gap,
    Comment,
}

/// A piece at the front of some bytes.
#[derive(Clone, Copy, Debug)]
pub struct Found {
    pub shape: Shape,
    pub len: usize,
}

/// What a run consists of.
#[derive(Clone, Copy, Debug)]
pub enum Class {
    InWord,
    Digit,
    InComment,
}

/// Whether a word may begin with the byte.
fn begins_word(b: u8) -> bool
    ensures class { result ≡ classes.begins_word b }
{
    matches!(b, b'a'..=b'z' | b'A'..=b'Z' | b'_')
}

/// Whether the byte is a digit.
fn is_digit(b: u8) -> bool
    ensures class { result ≡ classes.is_digit b }
{
    matches!(b, b'0'..=b'9')
}

/// Whether the byte separates pieces.
fn is_gap(b: u8) -> bool
    ensures class { result ≡ classes.is_gap b }
{
    b == b' ' || b == b'\t' || b == b'\r'
}

/// Whether the byte is a sign by itself.
fn is_short_sign(b: u8) -> bool
    ensures class { result ≡ classes.is_short_sign b }
{
    matches!(b, b'('..=b'-' | b'/' | b':' | b'=' | b'[' | b']')
}

/// Whether the byte begins a sign of two bytes.
fn begins_long_sign(b: u8) -> bool
    ensures class { result ≡ classes.begins_long_sign b }
{
    b == b'<' || b == b'>'
}

/// Whether a run of the class goes on over the byte.
fn passes(class: Class, b: u8) -> bool
    ensures class { result ≡ runs.passes class b }
{
    match class {
        Class::InWord => begins_word(b) || is_digit(b),
        Class::Digit => is_digit(b),
        Class::InComment => b != b'\n',
    }
}

/// How many bytes at the front are of the class.
fn run_len(bytes: &[u8], class: Class) -> usize
    ensures within { result ≤ length bytes.now }
    ensures run { IsRun (runs.passes class) (take result bytes.now) (drop result bytes.now) }
{
    for (i, b) in bytes.iter().enumerate() {
        if !passes(class, *b) {
            return i;
        }
    }
    bytes.len()
}

/// The piece of that shape at the front: one byte and the run of the class behind it.
fn run_piece(kind: Shape, class: Class, bytes: &[u8]) -> Found
    requires some { 0 < length bytes.now }
    ensures shape { result.shape ≡ kind }
    ensures within { (0 < result.len) × (result.len ≤ length bytes.now) }
    ensures run { IsRun (runs.passes class) (drop 1 (take result.len bytes.now))
        (drop result.len bytes.now) }
{
    Found {
        shape: kind,
        len: 1 + run_len(&bytes[1..], class),
    }
}

/// The piece at the front of some bytes.
pub fn front_piece(bytes: &[u8]) -> Option<Found>
    requires some { 0 < length bytes.now }
    ensures piece { MatchOption result (BeginsNoPiece bytes.now)
        (λ found. IsFound found bytes.now) }
{
    let first = bytes[0];
    if begins_word(first) {
        return Some(run_piece(Shape::Lexeme(Kind::Word), Class::InWord, bytes));
    }
    if is_digit(first) {
        return Some(run_piece(Shape::Lexeme(Kind::Digits), Class::Digit, bytes));
    }
    if first == b'#' {
        return Some(run_piece(Shape::Comment, Class::InComment, bytes));
    }
    short_piece(bytes)
}

/// The piece of one or two bytes at the front.
fn short_piece(bytes: &[u8]) -> Option<Found>
    requires some { 0 < length bytes.now }
    ensures piece { MatchOption result (BeginsNoShortPiece bytes.now)
        (λ found. IsFound found bytes.now) }
{
    let (shape, len) = match bytes {
        [b'\n', ..] => (Shape::Lexeme(Kind::LineEnd), 1),
        [b, ..] if is_gap(*b) => (Shape::Gap, 1),
        [b, ..] if is_short_sign(*b) => (Shape::Lexeme(Kind::Sign), 1),
        [b, b'=', ..] if begins_long_sign(*b) => (Shape::Lexeme(Kind::Sign), 2),
        _ => return None,
    };
    Some(Found { shape, len })
}
