//! Model texts, each as statements, as a model or as its canonical text, or the rule that it breaks and the line.

ghost use Rattle.std.specs.Prelude.{IfOk};
ghost use Rattle.rob_meaning.specs.Named.{IsNamed};
ghost use Rattle.rob_model.specs.Valid.{IsValid};
ghost use Rattle.rob_model.specs.View.{robust};

use rob_case::text::{broken, said, shown};
use rob_case::{Case, Trouble};
use rob_model::Model;
use rob_number::{Exact, Tally, Text};
use rob_parse::read_model;
use rob_rules::{ModelErr, read_text};
use rob_write::write_model;
use std::alloc::Global;

const LIMIT: u64 = (1 << 62) - 1;

/// How many statements a text has, or the rule and the line that it breaks.
fn reading(alloc: Global, text: &[u8]) -> Result<Result<usize, (u8, u32)>, Trouble> {
    if text.len() > 1 << 30 {
        return Err(Trouble::Line);
    }
    match read_text(alloc, text, LIMIT) {
        Ok(found) => Ok(Ok(found.list.items().len())),
        Err(ModelErr::Rule(rule, line)) => Ok(Err((rule, line))),
        Err(ModelErr::Memory) => Err(Trouble::Memory),
    }
}

/// How many statements a text has.
pub(crate) fn statements(alloc: Global, text: &[u8]) -> Result<String, Trouble> {
    match reading(alloc, text)? {
        Ok(count) => Ok(format!(in alloc; "{count} statements")?),
        Err((rule, line)) => broken(alloc, rule, line),
    }
}

/// What a goal and a line of one byte read as: signs are no statement, letters no keyword, and digits neither.
fn of_byte(byte: u8) -> Result<usize, (u8, u32)> {
    match byte {
        b' ' | b'\t' | b'\r' | b'\n' | b'#' => Ok(1),
        b'a'..=b'z' | b'A'..=b'Z' | b'_' | b'0'..=b'9' => Err((11, 2)),
        b'(' | b')' | b'*' | b'+' | b',' | b'-' | b'/' | b':' | b'=' | b'[' | b']' => Err((11, 2)),
        128..=255 => Err((1, 2)),
        _ => Err((2, 2)),
    }
}

/// A text with one byte behind it.
fn with_byte(alloc: Global, text: &[u8], byte: u8) -> Result<Vec<u8>, Trouble> {
    let mut whole = Vec::from_slice(alloc, text)?;
    whole.push(byte)?;
    Ok(whole)
}

/// The first byte that reads otherwise than `of_byte` says behind a goal's line, or in a comment otherwise than as
/// nothing.
fn first_other(alloc: Global) -> Result<Option<u8>, Trouble> {
    for byte in 0..=255 {
        let outside = with_byte(alloc, b"minimise 1\n", byte)?;
        let inside = with_byte(alloc, b"minimise 1 # ", byte)?;
        if reading(alloc, outside.as_slice())? != of_byte(byte)
            || reading(alloc, inside.as_slice())? != Ok(1)
        {
            return Ok(Some(byte));
        }
    }
    Ok(None)
}

/// Whether every byte reads as it should, outside and inside a comment.
pub(crate) fn every_byte(alloc: Global) -> Result<String, Trouble> {
    let other = first_other(alloc)?;
    Ok(format!(in alloc; "{other:?}")?)
}

/// The model of a text that has one.
pub(crate) fn model<N: Exact>(alloc: Global, text: &[u8]) -> Result<Model<N>, Trouble>
    ensures valid { IfOk result (λ m. IsValid N.value m) }
    ensures named { IfOk result (λ m. IsNamed (robust N.value m)) }
{
    if text.len() > 1 << 30 {
        return Err(Trouble::Line);
    }
    match read_model(alloc, text, &mut Tally::new()) {
        Ok(model) => Ok(model),
        Err(_) => Err(Trouble::Line),
    }
}

/// How many parameters, statements on the set, variables, adaptive variables and rows the model of a text has.
pub(crate) fn sizes<N: Exact>(alloc: Global, text: &[u8]) -> Result<String, Trouble> {
    if text.len() > 1 << 30 {
        return Err(Trouble::Line);
    }
    match read_model::<N, Tally>(alloc, text, &mut Tally::new()) {
        Ok(model) => told(alloc, &model),
        Err(ModelErr::Rule(rule, line)) => broken(alloc, rule, line),
        Err(ModelErr::Memory) => Err(Trouble::Memory),
    }
}

fn told<N: Exact>(alloc: Global, model: &Model<N>) -> Result<String, Trouble> {
    let params = model.params.items().len();
    let lines = model.set_lines.items().len();
    let vars = model.vars.items().len();
    let adaptives = model.adaptives.items().len();
    let rows = model.rows.items().len();
    Ok(format!(in alloc; "{params} {lines} {vars} {adaptives} {rows}")?)
}

/// The canonical text of the model of a text.
fn written<N: Exact>(alloc: Global, text: &[u8]) -> Result<Text, Trouble> {
    let read: Model<N> = model(alloc, text)?;
    Ok(write_model(alloc, &read)?)
}

/// The canonical text of the model of a text, and whether it is its own canonical text.
pub(crate) fn canonical<N: Exact>(alloc: Global, text: &[u8]) -> Result<String, Trouble> {
    let once = written::<N>(alloc, text)?;
    let again = written::<N>(alloc, once.bytes())?;
    let mut answer = shown(alloc, once.bytes())?;
    if once.bytes() != again.bytes() {
        answer.push_str(" and another")?;
    }
    Ok(answer)
}

/// Whether the text reads as the same model as the text of the model: one whose canonical text is the same.
pub(crate) fn same<N: Exact>(alloc: Global, case: &Case) -> Result<String, Trouble> {
    let one = written::<N>(alloc, case.model())?;
    let other = written::<N>(alloc, case.bytes())?;
    said(
        alloc,
        if one.bytes() == other.bytes() {
            "the same"
        } else {
            "another"
        },
    )
}
