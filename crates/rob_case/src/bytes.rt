//! The bytes that lines give.

ghost use Rattle.rob_case.specs.Answers.{Appends};
ghost use Rattle.rob_case.specs.Cases.{line_bytes, lines_bytes, times_bytes};
ghost use Rattle.rob_case.specs.Texts.{all_numbered, repeated};

use crate::numbers::small;
use crate::text::{keyword, unescape};
use crate::trouble::Trouble;
use std::alloc::Global;

/// Appends the bytes that a text spells, and a line end.
pub(crate) fn append_line(bytes: &mut Vec<u8>, text: &str) -> Result<(), Trouble>
    ensures appended { Appends bytes.old.items (line_bytes text.now) bytes.new.items result }
{
    unescape(bytes, text.as_bytes())?;
    bytes.push(b'\n')?;
    Ok(())
}

/// Appends the bytes that a text spells as many times as the number before it says.
pub(crate) fn append_times(alloc: Global, bytes: &mut Vec<u8>, rest: &str) -> Result<(), Trouble>
    ensures appended { Appends bytes.old.items (times_bytes rest.now) bytes.new.items result }
{
    let (count, text) = keyword(rest);
    let count = small(count)?;
    let mut piece = Vec::new(alloc);
    unescape(&mut piece, text.as_bytes())?;
    repeat(bytes, count, piece.as_slice())
}

/// Appends a piece so many times.
fn repeat(bytes: &mut Vec<u8>, count: u32, piece: &[u8]) -> Result<(), Trouble>
    ensures appended { Appends bytes.old.items
        (Some (repeated count piece.now)) bytes.new.items result }
{
    for _ in 0..count {
        bytes.extend_from_slice(piece)?;
    }
    Ok(())
}

/// Appends as many lines as the number says, each with its number, from 0, where the `%` stands.
pub(crate) fn append_lines(alloc: Global, bytes: &mut Vec<u8>, rest: &str) -> Result<(), Trouble>
    ensures appended { Appends bytes.old.items (lines_bytes rest.now) bytes.new.items result }
{
    let (count, text) = keyword(rest);
    let count = small(count)?;
    match text.split_once('%') {
        Some((front, back)) => number(alloc, bytes, count, front, back),
        None => Err(Trouble::Line),
    }
}

/// Appends so many lines, each of the two pieces with its number between them, from 0.
fn number(
    alloc: Global,
    bytes: &mut Vec<u8>,
    count: u32,
    front: &str,
    back: &str,
) -> Result<(), Trouble>
    ensures appended { Appends bytes.old.items
        (Some (all_numbered count front.now back.now)) bytes.new.items result }
{
    for i in 0..count {
        let line = format!(in alloc; "{front}{i}{back}\n")?;
        bytes.extend_from_slice(line.as_bytes())?;
    }
    Ok(())
}
