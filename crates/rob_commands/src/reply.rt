//! Answers with their texts, assembled before anything is put.

ghost use Rattle.std.specs.Prelude.{◌++◌, IfOk};
ghost use Rattle.std.specs.Fmt.{decimal};
ghost use Rattle.rob_model.specs.View.{robust};
ghost use Rattle.rob_report.specs.Lines.{line as one_line};
ghost use Rattle.rob_commands.specs.Answers.{certificate_fault_text, fault_text, line_fault_text, words_text};
ghost use Rattle.rob_commands.specs.Replies.{Replies};
ghost use Rattle.rob_write.specs.Canonical.{model_text};

use crate::ended::Ended;
use itoa::Buffer;
use rob_model::Model;
use rob_number::{Exact, Memory, Text};
use rob_write::write_model;
use std::alloc::Global;

/// An answer, and the whole text that is put for it.
#[derive(Debug, Drop)]
pub struct Reply {
    pub ended: Ended,
    pub text: Text,
}

/// The answer with a line of these two pieces.
pub fn line(alloc: Global, ended: Ended, first: &[u8], second: &[u8]) -> Result<Reply, Memory>
    ensures line { IfOk result (Replies ended (one_line (first.now ++ second.now))) }
{
    let mut text = Text::new(alloc);
    text.push(first)?;
    text.push(second)?;
    text.push(b"\n")?;
    Ok(Reply { ended, text })
}

/// The answer with the line of a fault, which has these two pieces.
pub fn fault(alloc: Global, ended: Ended, what: &[u8], name: &[u8]) -> Result<Reply, Memory>
    ensures fault { IfOk result (Replies ended (fault_text (what.now ++ name.now))) }
{
    let mut text = Text::new(alloc);
    text.push(b"fault: ")?;
    text.push(what)?;
    text.push(name)?;
    text.push(b"\n")?;
    Ok(Reply { ended, text })
}

/// The answer where words are no command line, or own words aren't of their kinds, which no command line has.
pub fn no_line(alloc: Global) -> Result<Reply, Memory>
    ensures fault { IfOk result (Replies Ended.Words words_text) }
{
    fault(alloc, Ended::Words, b"words", b"")
}

/// The answer with the line of a rule that a command's own words break. `kind` is whose rule it is.
pub fn broken_words(alloc: Global, ended: Ended, kind: &[u8], rule: u8) -> Result<Reply, Memory>
    ensures fault { IfOk result (Replies ended (fault_text (kind.now ++ decimal rule))) }
{
    fault(alloc, ended, kind, Buffer::new().format(rule).as_bytes())
}

/// The answer with the line of a rule that a text breaks, and of the line there. `kind` is whose rule it is.
pub fn broken_rule(
    alloc: Global,
    ended: Ended,
    kind: &[u8],
    rule: u8,
    line: u32,
) -> Result<Reply, Memory>
    ensures fault { IfOk result (Replies ended (line_fault_text kind.now rule line)) }
{
    let mut place = Text::new(alloc);
    place.push(Buffer::new().format(rule).as_bytes())?;
    place.push(b" line ")?;
    place.push(Buffer::new().format(line).as_bytes())?;
    fault(alloc, ended, kind, place.bytes())
}

/// The answer for a certificate that breaks a rule at a line.
pub fn certificate_rule(alloc: Global, rule: u8, line: u32) -> Result<Reply, Memory>
    ensures fault { IfOk result (Replies (Ended.Cert rule line)
        (certificate_fault_text rule line)) }
{
    broken_rule(alloc, Ended::Cert(rule, line), b"certificate ", rule, line)
}

/// The answer for a certificate that claims an infeasible model, so that it has no plan.
pub fn no_plan(alloc: Global) -> Result<Reply, Memory>
    ensures fault { IfOk result (Replies (Ended.Cert 34 1) (certificate_fault_text 34 1)) }
{
    certificate_rule(alloc, 34, 1)
}

/// The answer with the canonical text of a model.
pub fn printed_model<N: Exact>(alloc: Global, model: &Model<N>) -> Result<Reply, Memory>
    ensures printed { IfOk result (Replies Ended.Printed (model_text (robust N.value model.now))) }
{
    let text = write_model(alloc, model)?;
    Ok(Reply {
        ended: Ended::Printed,
        text,
    })
}
