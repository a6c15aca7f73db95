//! What is said of a case at its end.

ghost use Rattle.std.specs.Prelude.{◌≡◌, ◌↔◌, IfOk, IsTrue, MatchResult, string_bytes};
ghost use Rattle.rob_case.specs.Cases.{verdict_text};

use crate::case::Case;
use crate::trouble::Trouble;
use std::alloc::Global;

/// What is said of a case: whether it gave what is wanted, and the line or lines that tell it.
#[derive(Drop)]
pub struct Verdict {
    pub same: bool,
    pub text: String,
}

/// The verdict on a case of which these answers are wanted.
pub fn judge(alloc: Global, case: &Case, wanted: &str) -> Result<Verdict, Trouble>
    ensures same { IfOk result (λ verdict. IsTrue verdict.same ↔ (case.now.answer ≡ wanted.now)) }
    ensures text { MatchResult result
        (λ verdict. string_bytes verdict.text
        ≡ verdict_text verdict.same case.now.name case.now.answer wanted.now)
        (λ trouble. trouble ≡ Trouble.Memory) }
{
    let name = case.name();
    let answer = case.answer();
    if answer == wanted {
        return Ok(Verdict {
            same: true,
            text: format!(in alloc; "ok {name}")?,
        });
    }
    Ok(Verdict {
        same: false,
        text: format!(in alloc; "DIFFERS {name}\n  gave   {answer}\n  wanted {wanted}")?,
    })
}
