//! The different words of a text, and what its tokens are with them.

ghost use Rattle.std.specs.Prelude.{◌≡◌, ◌+◌, ◌*◌, ◌-◌, [], ◌∷◌, min, fold, option_to_list, IfOk, OnOk, MatchOption};
ghost use Rattle.rob_syntax.specs.Known.{texts};
ghost use Rattle.rob_syntax.specs.Symbols.{keywords, keyword_among, value_of, greatest_digits, add_word, word_in, words_of, symbol_at, symbols_of, token_lines};
ghost use Rattle.rob_syntax.specs.Symbols as spec;
ghost use Rattle.rob_syntax.specs.Versions.{seen_version};

use crate::keyword::{first_of, keyword_of, mark_of};
use crate::symbol::{Keyword, Symbol};
use crate::version::Version;
use indexmap::IndexSet;
use rob_lex::{Kind, Token};
use rob_number::Memory;
use std::alloc::Global;

/// The bytes that a name of version 1 may have.
const LONGEST_NAME: usize = 32;

/// What digits of a greater value count as.
const GREATEST_DIGITS: u64 = 1 << 62;

/// The different words of a text, in order of their first places; a word's number is its place among them, from 0.
pub type Words = IndexSet<Vec<u8>>;

/// The different words among the tokens.
pub fn collect_words(alloc: Global, text: &[u8], tokens: &[Token]) -> Result<Words, Memory>
    ensures words { IfOk result (λ words. texts words.keys ≡ words_of text.now tokens.now) }
{
    let mut words = IndexSet::new(alloc);
    for token in tokens {
        add(alloc, &mut words, text, *token)?;
    }
    Ok(words)
}

/// Adds the token's word, if it is one and isn't there.
fn add(alloc: Global, words: &mut Words, text: &[u8], token: Token) -> Result<(), Memory>
    ensures words { OnOk result (texts words.new.keys
        ≡ fold add_word (texts words.old.keys) (word_in text.now token)) }
{
    if let Kind::Word = token.kind {
        let word = Vec::from_slice(alloc, bytes_of(text, token))?;
        words.insert(word)?;
    }
    Ok(())
}

/// The bytes of a token: what of its range lies inside the text.
pub fn bytes_of(text: &[u8], token: Token) -> &[u8]
    ensures bytes { result.now ≡ spec.bytes_of text.now token }
{
    let end = text.len().min(token.end as usize);
    let start = end.min(token.start as usize);
    &text[start..end]
}

/// The symbols of some tokens of a text of that version.
pub fn symbols(
    alloc: Global,
    version: Version,
    words: &Words,
    text: &[u8],
    tokens: &[Token],
) -> Result<Vec<Symbol>, Memory>
    ensures symbols { IfOk result
        (λ v. v.items ≡ symbols_of text.now (seen_version version)
        (texts words.now.keys) tokens.now) }
{
    let mut symbols = Vec::new(alloc);
    for token in tokens {
        let bytes = bytes_of(text, *token);
        if let Some(symbol) = symbol(version, words, token.kind, bytes) {
            symbols.push(symbol)?;
        }
    }
    Ok(symbols)
}

/// The symbol of a token's kind and bytes; a line end has none.
fn symbol(version: Version, words: &Words, kind: Kind, bytes: &[u8]) -> Option<Symbol>
    ensures symbol { option_to_list result
        ≡ symbol_at (seen_version version) (texts words.now.keys) kind bytes.now }
{
    match kind {
        Kind::Word => Some(word_symbol(version, words, bytes)),
        Kind::Digits => Some(Symbol::Digits(digits_value(bytes))),
        Kind::Sign => Some(Symbol::Sign(mark_of(first_of(bytes)))),
        Kind::LineEnd => None,
    }
}

/// A keyword, or a name.
fn word_symbol(version: Version, words: &Words, word: &[u8]) -> Symbol
    ensures symbol { result ≡ spec.word_symbol (seen_version version)
        (texts words.now.keys) word.now
        (keyword_among keywords word.now) }
{
    match keyword_of(word) {
        Some(keyword) => Symbol::Reserved(keyword),
        None => {
            if is_name(version, word) {
                Symbol::Name(number_of(words, word))
            } else {
                Symbol::Reserved(Keyword::Unused)
            }
        }
    }
}

/// Whether a word that is no keyword is a name of that version.
fn is_name(version: Version, word: &[u8]) -> bool
    ensures name { result ≡ spec.is_name (seen_version version) word.now }
{
    match version {
        Version::One => word.len() <= LONGEST_NAME,
        Version::Two => true,
    }
}

/// The number of a word, or 0.
fn number_of(words: &Words, word: &[u8]) -> usize
    ensures number { result ≡ spec.number_of (texts words.now.keys) word.now }
{
    words.get_index_of(word).unwrap_or(0)
}

/// The value of digits, or 2^62 where that is less.
fn digits_value(digits: &[u8]) -> u64
    ensures value { result ≡ min (value_of digits.now) greatest_digits }
{
    let mut value = 0;
    for digit in digits {
        value = with_digit(value, *digit);
    }
    value
}

/// The value with one more digit, or 2^62 where that is less.
fn with_digit(value: u64, digit: u8) -> u64
    ensures value { result ≡ min (10 * value + (digit - 48)) greatest_digits }
{
    let units = u64::from(digit.saturating_sub(b'0'));
    value
        .saturating_mul(10)
        .saturating_add(units)
        .min(GREATEST_DIGITS)
}

/// The tokens of the first line, and those behind its line end, if it has one.
pub fn front_line(tokens: &[Token]) -> (&[Token], Option<&[Token]>)
    ensures line { MatchOption result.1
        (token_lines tokens.now ≡ result.0.now ∷ [])
        (λ behind. token_lines tokens.now ≡ result.0.now ∷ token_lines behind.now) }
{
    for (i, token) in tokens.iter().enumerate() {
        if let Kind::LineEnd = token.kind {
            return (&tokens[..i], Some(&tokens[i + 1..]));
        }
    }
    (tokens, None)
}
