//! The tokens of a text, in one pass: each byte is looked at a bounded number of times.

ghost use Rattle.std.specs.Prelude.{◌≡◌, ◌+◌, ◌<◌, ◌≤◌, ◌^◌, ◌++◌, length, IfOk, IfErr, OnOk};
ghost use Rattle.rob_lex.specs.declared.error.LexErr.TheVariants.{Memory};
ghost use Rattle.rob_lex.specs.Places.{token_at};
ghost use Rattle.rob_lex.specs.Offences.{AreTokens, HasCause};

use crate::error::LexErr;
use crate::offence::{end_offence, next_piece};
use crate::piece::Shape;
use crate::place::Place;
use crate::token::Token;
use std::alloc::Global;

/// The tokens of the text, in order, or the rule and the line of its first offending place.
pub fn tokens(alloc: Global, text: &[u8]) -> Result<Vec<Token>, LexErr>
    requires room { length text.now ≤ 2 ^ 30 }
    // The tokens of the text, where no place of it offends.
    ensures read { IfOk result (λ list. AreTokens text.now list.items) }
    // A rule exactly where the first offending place breaks it; memory is free.
    ensures cause { IfErr result (λ e. HasCause text.now e) }
{
    let mut list = Vec::new(alloc);
    let mut at = Place::start();
    let mut rest = text;
    while !rest.is_empty() {
        let found = match next_piece(&at, rest) {
            Ok(found) => found,
            Err(offence) => return Err(LexErr::Rule(offence.rule(), at.line)),
        };
        let (bytes, after) = rest.split_at(found.len);
        push_token(&mut list, &at, found.shape, bytes)?;
        at = at.behind(found.shape, bytes);
        rest = after;
    }
    match end_offence(&at) {
        Some(offence) => Err(LexErr::Rule(offence.rule(), at.line)),
        None => Ok(list),
    }
}

/// Pushes the token of a piece; a gap and a comment have none.
fn push_token(list: &mut Vec<Token>, at: &Place, shape: Shape, bytes: &[u8]) -> Result<(), LexErr>
    requires room { at.now.offset + length bytes.now < 2 ^ 32 }
    ensures pushed { OnOk result (list.new.items
        ≡ list.old.items ++ token_at at.now shape bytes.now) }
    ensures cause { IfErr result (λ e. e ≡ Memory) }
{
    if let Shape::Lexeme(kind) = shape {
        let end = at.offset + bytes.len() as u32;
        list.push(Token {
            kind,
            start: at.offset,
            end,
            line: at.line,
        })?;
    }
    Ok(())
}
