//! The texts of cases: lines with a keyword, bytes with escapes, and bytes as they are shown.

ghost use Rattle.std.specs.Prelude.{◌≡◌, ◌<◌, ◌∷◌, IfOk, MatchResult, codes, length, option_map, string_bytes};
ghost use Rattle.std.specs.Char.{digit_char};
ghost use Rattle.rob_case.specs.Answers.{Answers, Appends};
ghost use Rattle.rob_case.specs.Texts.{broken_text, hex_value, joined, keyword_of, rest_of, shown_byte};
ghost use Rattle.rob_case.specs.Texts.{shown_bytes, spelled};

use crate::trouble::Trouble;
use std::alloc::Global;

/// The first word of a line, and what stands behind the space behind it.
pub fn keyword(line: &str) -> (&str, &str)
    ensures keyword { result.0.now ≡ keyword_of line.now }
    ensures rest { result.1.now ≡ rest_of line.now }
{
    match line.split_once(' ') {
        Some((keyword, rest)) => (keyword, rest),
        None => (line, ""),
    }
}

/// Appends a text in which `\` and two hexadecimal digits stand for any byte. After an error the bytes are open.
pub fn unescape(bytes: &mut Vec<u8>, text: &[u8]) -> Result<(), Trouble>
    ensures appended { Appends bytes.old.items (spelled text.now) bytes.new.items result }
{
    let mut rest = text;
    while !rest.is_empty() {
        let (byte, behind) = first_byte(rest)?;
        bytes.push(byte)?;
        rest = behind;
    }
    Ok(())
}

/// The byte that stands first, and what is behind it.
fn first_byte(text: &[u8]) -> Result<(u8, &[u8]), Trouble>
    requires filled { 0 < length text.now }
    ensures shorter { IfOk result (λ r. length r.1.now < length text.now) }
    ensures spelled { MatchResult result
        (λ r. spelled text.now ≡ option_map (λ more. r.0 ∷ more) (spelled r.1.now))
        (λ trouble. (trouble ≡ Trouble.Line) × (spelled text.now ≡ None)) }
{
    match text {
        [b'\\', high, low, behind @ ..] => Ok((hex(*high)? * 16 + hex(*low)?, behind)),
        [b'\\', ..] => Err(Trouble::Line),
        [byte, behind @ ..] => Ok((*byte, behind)),
        [] => Err(Trouble::Line),
    }
}

/// The value of a hexadecimal digit, below 16.
fn hex(digit: u8) -> Result<u8, Trouble>
    ensures small { IfOk result (λ value. value < 16) }
    ensures value { MatchResult result
        (λ value. hex_value digit ≡ Some value)
        (λ trouble. (trouble ≡ Trouble.Line) × (hex_value digit ≡ None)) }
{
    match digit {
        b'0'..=b'9' => Ok(digit - b'0'),
        b'a'..=b'f' => Ok(digit - b'a' + 10),
        _ => Err(Trouble::Line),
    }
}

/// Bytes as a text: each that is no visible letter stands as `\` and two hexadecimal digits.
pub fn shown(alloc: Global, bytes: &[u8]) -> Result<String, Trouble>
    ensures shown { Answers (Some (shown_bytes bytes.now)) (λ text. string_bytes text) result }
{
    let mut text = String::new(alloc);
    for byte in bytes {
        show(&mut text, *byte)?;
    }
    Ok(text)
}

/// Appends a byte as it is shown.
fn show(text: &mut String, byte: u8) -> Result<(), Trouble>
    ensures shown { Appends (string_bytes text.old) (Some (shown_byte byte))
        (string_bytes text.new) result }
{
    if matches!(byte, b' '..=b'~') && byte != b'\\' {
        text.push(char::from(byte))?;
    } else {
        text.push('\\')?;
        text.push(digit(byte / 16))?;
        text.push(digit(byte % 16))?;
    }
    Ok(())
}

/// A hexadecimal digit.
fn digit(value: u8) -> char
    requires small { value < 16 }
    ensures digit { result ≡ digit_char value }
{
    match char::from_digit(u32::from(value), 16) {
        Some(digit) => digit,
        None => '?',
    }
}

/// The answer of a text that breaks a rule.
pub fn broken(alloc: Global, rule: u8, line: u32) -> Result<String, Trouble>
    ensures broken { Answers (Some (broken_text rule line)) (λ text. string_bytes text) result }
{
    Ok(format!(in alloc; "rule {rule} line {line}")?)
}

/// An answer in words.
pub fn said(alloc: Global, words: &str) -> Result<String, Trouble>
    ensures said { Answers (Some words.now) (λ text. string_bytes text) result }
{
    Ok(String::from_str(alloc, words)?)
}

/// Appends a piece, behind a comma where something stands before it. After an error the text is open.
pub fn add(text: &mut String, piece: &str) -> Result<(), Trouble>
    ensures added { Answers (Some (joined (codes ", ") (string_bytes text.old) piece.now))
        (λ _. string_bytes text.new) result }
{
    join(text, ", ", piece)
}

/// Appends a piece, behind a mark where something stands before it.
pub(crate) fn join(text: &mut String, mark: &str, piece: &str) -> Result<(), Trouble>
    ensures joined { Answers (Some (joined mark.now (string_bytes text.old) piece.now))
        (λ _. string_bytes text.new) result }
{
    if !text.is_empty() {
        text.push_str(mark)?;
    }
    text.push_str(piece)?;
    Ok(())
}
