//! The version of a text, and the line that names it.

ghost use Rattle.std.specs.Prelude.{◌≡◌, ◌||◌};
ghost use Rattle.rob_syntax.specs.Symbols.{token_lines};
ghost use Rattle.rob_syntax.specs.Versions.{seen_version, text_version, first_line, has_token};
ghost use Rattle.rob_syntax.specs.Versions as spec;

use crate::words::{bytes_of, front_line};
use rob_lex::{Kind, Token};

/// The versions of model texts.
#[derive(Clone, Copy, PartialEq, Eq)]
pub enum Version {
    One,
    /// With indices, ranges and sums.
    Two,
}

/// The version of a text with these tokens: 2 where its first line with a token is `model 2`.
pub fn read_version(text: &[u8], tokens: &[Token]) -> Version
    ensures version { seen_version result ≡ text_version text.now tokens.now }
{
    if names_version(text, first(tokens)) {
        Version::Two
    } else {
        Version::One
    }
}

/// The tokens of the first line that has one; none where none has.
fn first(tokens: &[Token]) -> &[Token]
    ensures line { result.now ≡ first_line (token_lines tokens.now) }
{
    for (i, token) in tokens.iter().enumerate() {
        if let Kind::LineEnd = token.kind {
            continue;
        }
        let (line, _) = front_line(&tokens[i..]);
        return line;
    }
    &[]
}

/// Whether the line is `model 2`.
fn names_version(text: &[u8], line: &[Token]) -> bool
    ensures named { result ≡ spec.names_version text.now line.now }
{
    match line {
        [word, number] => {
            bytes_of(text, *word) == b"model".as_slice()
                && bytes_of(text, *number) == b"2".as_slice()
        }
        _ => false,
    }
}

/// What is read of a line: nothing of one that names the version, where no line with a token has begun before it.
/// `begun` says whether one has, and then whether one has with this line.
pub fn body_line<'a>(text: &[u8], begun: &mut bool, line: &'a [Token]) -> &'a [Token]
    ensures line { result.now ≡ spec.body_line text.now begun.old line.now }
    ensures begun { begun.new ≡ (begun.old || has_token line.now) }
{
    if *begun || line.is_empty() {
        return line;
    }
    *begun = true;
    if names_version(text, line) { &[] } else { line }
}
