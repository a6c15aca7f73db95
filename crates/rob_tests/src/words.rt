//! Command lines and other words.

use rob_case::Trouble;
use rob_case::text::{keyword, said};
use rob_words::{CommandLine, Route, Verb, Width, WordsErr, read_words};
use std::alloc::Global;

/// The words of a line, with `|` between them.
fn strings(alloc: Global, line: &str) -> Result<Vec<String>, Trouble> {
    let mut strings = Vec::new(alloc);
    append(alloc, &mut strings, line)?;
    Ok(strings)
}

/// Appends the words of a line.
fn append(alloc: Global, strings: &mut Vec<String>, line: &str) -> Result<(), Trouble> {
    for word in line.split('|') {
        append_word(alloc, strings, word)?;
    }
    Ok(())
}

/// Appends a word.
fn append_word(alloc: Global, strings: &mut Vec<String>, word: &str) -> Result<(), Trouble> {
    let word = String::from_str(alloc, word)?;
    strings.push(word)?;
    Ok(())
}

/// The words, with more of them in front of the one at a place, or behind the last.
fn with_more(
    alloc: Global,
    words: &[String],
    place: usize,
    more: &str,
) -> Result<Vec<String>, Trouble> {
    let mut strings = Vec::new(alloc);
    append_with(alloc, &mut strings, words, place, more)?;
    Ok(strings)
}

/// Appends words, with more of them in front of the one at a place, or behind the last.
fn append_with(
    alloc: Global,
    strings: &mut Vec<String>,
    words: &[String],
    place: usize,
    more: &str,
) -> Result<(), Trouble> {
    for (k, word) in words.iter().enumerate() {
        if k == place {
            append(alloc, strings, more)?;
        }
        append_word(alloc, strings, word.as_str())?;
    }
    if place >= words.len() {
        append(alloc, strings, more)?;
    }
    Ok(())
}

/// The command line that words are, if they are one.
pub(crate) fn command(alloc: Global, line: &str) -> Result<String, Trouble> {
    let words = strings(alloc, line)?;
    told(alloc, words.as_slice())
}

/// What no word is.
pub(crate) fn no_word(alloc: Global) -> Result<String, Trouble> {
    told(alloc, &[])
}

fn told(alloc: Global, words: &[String]) -> Result<String, Trouble> {
    match read_words(alloc, words) {
        Ok(line) => spelled(alloc, &line),
        Err(WordsErr::NoCommandLine) => said(alloc, "none"),
        Err(WordsErr::Memory) => Err(Trouble::Memory),
    }
}

/// A command's name, its own words, the route where it isn't the default, and the width in bits.
fn spelled(alloc: Global, line: &CommandLine) -> Result<String, Trouble> {
    let bits = line.width.bits();
    let mut answer = said(alloc, name(line.verb))?;
    spell(&mut answer, line)?;
    put_bits(alloc, &mut answer, bits)?;
    Ok(answer)
}

/// Appends a command's own words, and the route where it isn't the default.
fn spell(text: &mut String, line: &CommandLine) -> Result<(), Trouble> {
    for word in line.own.as_slice() {
        text.push('|')?;
        text.push_str(word.as_str())?;
    }
    if line.route == Route::Cuts {
        text.push_str(" by cuts")?;
    }
    Ok(())
}

/// Appends a width in bits.
fn put_bits(alloc: Global, text: &mut String, bits: u32) -> Result<(), Trouble> {
    let word = format!(in alloc; " at {bits}")?;
    text.push_str(word.as_str())?;
    Ok(())
}

fn name(verb: Verb) -> &'static str {
    match verb {
        Verb::Rows => "rows",
        Verb::Solve => "solve",
        Verb::Prove => "prove",
        Verb::Check => "check",
        Verb::Replay => "replay",
        Verb::Text => "text",
        Verb::Gen => "gen",
        Verb::Whole => "whole",
        Verb::Tree => "tree",
        Verb::CheckTree => "checktree",
        Verb::Sweep => "sweep",
        Verb::SweepText => "sweeptext",
        Verb::Narrow => "narrow",
        Verb::Worst => "worst",
        Verb::Cells => "cells",
        Verb::CellText => "celltext",
    }
}

/// At how many places further words leave no command line. The first word of the call has those.
pub(crate) fn refused(alloc: Global, call: &str) -> Result<String, Trouble> {
    let (more, words) = keyword(call);
    let count = places(alloc, words, more, true)?;
    Ok(format!(in alloc; "refused at {count} places")?)
}

/// At how many places further words set the width to 16 bits. The first word of the call has those.
pub(crate) fn widened(alloc: Global, call: &str) -> Result<String, Trouble> {
    let (more, words) = keyword(call);
    let count = places(alloc, words, more, false)?;
    Ok(format!(in alloc; "16 bits at {count} places")?)
}

/// At how many places further words are refused, or set the width to 16 bits.
fn places(alloc: Global, words: &str, more: &str, refused: bool) -> Result<u32, Trouble> {
    let words = strings(alloc, words)?;
    places_among(alloc, words.as_slice(), more, refused)
}

/// At how many places among words further ones are refused, or set the width to 16 bits.
fn places_among(
    alloc: Global,
    words: &[String],
    more: &str,
    refused: bool,
) -> Result<u32, Trouble> {
    let mut count = 0u32;
    for place in 0..=words.len() {
        let all = with_more(alloc, words, place, more)?;
        if is_so(alloc, all.as_slice(), refused) {
            count = count.saturating_add(1);
        }
    }
    Ok(count)
}

/// Whether words are no command line, or one of 16 bits.
fn is_so(alloc: Global, words: &[String], refused: bool) -> bool {
    match read_words(alloc, words) {
        Ok(line) => !refused && line.width == Width::Sixteen,
        Err(WordsErr::NoCommandLine) => refused,
        Err(WordsErr::Memory) => false,
    }
}
