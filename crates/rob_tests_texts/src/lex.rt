//! Tokens of texts.

use rob_case::Trouble;
use rob_case::text::broken;
use rob_lex::{LexErr, Token, tokens};
use std::alloc::Global;

/// How many tokens a text has, or the rule and the line that it breaks.
fn reading(alloc: Global, text: &[u8]) -> Result<Result<usize, (u8, u32)>, Trouble> {
    if text.len() > 1 << 30 {
        return Err(Trouble::Line);
    }
    match tokens(alloc, text) {
        Ok(list) => Ok(Ok(list.len())),
        Err(LexErr::Rule(rule, line)) => Ok(Err((rule, line))),
        Err(LexErr::Memory) => Err(Trouble::Memory),
    }
}

/// How many tokens a text has.
pub(crate) fn count(alloc: Global, text: &[u8]) -> Result<String, Trouble> {
    match reading(alloc, text)? {
        Ok(count) => Ok(format!(in alloc; "{count} tokens")?),
        Err((rule, line)) => broken(alloc, rule, line),
    }
}

/// The token of that number, from 0: its kind, from where and to where it reaches, and its line.
pub(crate) fn token(alloc: Global, text: &[u8], k: u32) -> Result<String, Trouble> {
    if text.len() > 1 << 30 {
        return Err(Trouble::Line);
    }
    match tokens(alloc, text) {
        Ok(list) => match list.get(k as usize) {
            Some(token) => told(alloc, token),
            None => Err(Trouble::Line),
        },
        Err(_) => Err(Trouble::Line),
    }
}

fn told(alloc: Global, token: &Token) -> Result<String, Trouble> {
    let kind = token.kind;
    let start = token.start;
    let end = token.end;
    let line = token.line;
    Ok(format!(in alloc; "{kind:?} from {start} to {end} on line {line}")?)
}

/// What a byte alone on the second line gives: letters, `_`, digits, the short signs and LF are tokens, `#` and the
/// separating bytes are none.
fn of_byte(byte: u8) -> Result<usize, (u8, u32)> {
    match byte {
        b'\n' | b'a'..=b'z' | b'A'..=b'Z' | b'_' | b'0'..=b'9' => Ok(2),
        b'(' | b')' | b'*' | b'+' | b',' | b'-' | b'/' | b':' | b'=' | b'[' | b']' => Ok(2),
        b' ' | b'\t' | b'\r' | b'#' => Ok(1),
        128..=255 => Err((1, 2)),
        _ => Err((2, 2)),
    }
}

/// The first byte that reads otherwise than `of_byte` says alone on a line, or in a comment otherwise than as nothing.
fn first_other(alloc: Global) -> Result<Option<u8>, Trouble> {
    for byte in 0..=255 {
        let inside = if byte == b'\n' { 2 } else { 1 };
        if reading(alloc, &[b'\n', byte])? != of_byte(byte)
            || reading(alloc, &[b'\n', b'#', byte])? != Ok(inside)
        {
            return Ok(Some(byte));
        }
    }
    Ok(None)
}

/// Whether every byte reads as it should, outside and inside a comment.
pub(crate) fn every_byte(alloc: Global) -> Result<String, Trouble> {
    let other = first_other(alloc)?;
    Ok(format!(in alloc; "{other:?}")?)
}
