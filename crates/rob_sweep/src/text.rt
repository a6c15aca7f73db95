//! The printed text of a sweep.

ghost use Rattle.std.specs.Prelude.{◌≡◌, ◌∷◌, ◌++◌, [], codes, length, map, IfOk, OnOk};
ghost use Rattle.rob_cert.specs.Spelling.{behind_spaces, number_text};
ghost use Rattle.rob_sweep.specs.SweepText.{answer_line, answer_words, sweep_text as text_of};
ghost use Rattle.rob_sweep.specs.View.{answer_of};

use crate::answer::SweepAnswer;
use rob_cert::spelling::put_number;
use rob_number::{Exact, Memory, Text};
use std::alloc::Global;

/// The lines `budget G ANSWER` of a sweep's limits with their answers.
pub fn sweep_text<N: Exact>(
    alloc: Global,
    limits: &[N],
    answers: &[SweepAnswer<N>],
) -> Result<Text, Memory>
    requires count { length answers.now ≡ length limits.now }
    ensures text { IfOk result (λ text. text
        ≡ text_of (map N.value limits.now) (map (answer_of N.value) answers.now)) }
{
    let mut text = Text::new(alloc);
    for i in 0..limits.len() {
        put_answer(&mut text, limits[i], &answers[i])?;
    }
    Ok(text)
}

/// Appends the line of a limit with its answer.
fn put_answer<N: Exact>(out: &mut Text, limit: N, answer: &SweepAnswer<N>) -> Result<(), Memory>
    ensures appended { OnOk result (out.new
        ≡ out.old ++ answer_line (N.value limit) (answer_of N.value answer.now)) }
{
    out.push(b"budget ")?;
    put_number(out, limit)?;
    put_claim(out, answer)
}

/// Appends the words of an answer, a space before each, and the line's end.
fn put_claim<N: Exact>(out: &mut Text, answer: &SweepAnswer<N>) -> Result<(), Memory>
    ensures appended { OnOk result (out.new
        ≡ out.old ++ behind_spaces (answer_words (answer_of N.value answer.now))) }
{
    match answer {
        SweepAnswer::Optimal(value) => put_optimal(out, *value),
        SweepAnswer::Infeasible => out.push(b" infeasible\n"),
        SweepAnswer::Unbounded => out.push(b" unbounded\n"),
        SweepAnswer::Empty => out.push(b" empty set\n"),
    }
}

/// Appends the words of an optimum.
fn put_optimal<N: Exact>(out: &mut Text, value: N) -> Result<(), Memory>
    ensures appended { OnOk result (out.new
        ≡ out.old ++ behind_spaces (codes "optimal" ∷ (number_text (N.value value) ∷ []))) }
{
    out.push(b" optimal ")?;
    put_number(out, value)?;
    out.push(b"\n")
}
