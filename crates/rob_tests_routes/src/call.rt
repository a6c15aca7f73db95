//! The calls of the cases.

ghost use Rattle.rob_meaning.specs.Named.{IsNamed};
ghost use Rattle.rob_model.specs.Valid.{IsValid};
ghost use Rattle.rob_model.specs.View.{robust};

use crate::answer::Answer;
use crate::{alike, boxes, given, sweep, tree, whole};
use rob_case::text::keyword;
use rob_case::{Calls, Case, Trouble};
use rob_model::Model;
use rob_number::{Exact, Frac};
use rob_quick::Quick;

/// The libraries of trees, sweeps, worst scenarios and cuts.
pub(crate) struct Libraries;

impl Calls<HostRuntime> for Libraries {
    fn answer(rt: &HostRuntime, case: &Case, word: &str, rest: &str) -> Result<String, Trouble> {
        let mut answer = Answer::new(rt.alloc());
        put_answer(&mut answer, case, word, rest)?;
        Ok(answer.text)
    }
}

/// Behind `narrow` comes a call with numbers of 8 bits; the others have 62. What is told to be alike is so with two
/// number types.
fn put_answer(answer: &mut Answer, case: &Case, word: &str, rest: &str) -> Result<(), Trouble> {
    match word {
        "narrow" => {
            let (word, rest) = keyword(rest);
            call::<Frac<8>>(answer, case, word, rest)
        }
        "alike" => alike::compared::<Frac<62>, Quick<62>>(answer, case, rest),
        "alike-8" => alike::compared::<Frac<8>, Quick<8>>(answer, case, rest),
        _ => call::<Frac<62>>(answer, case, word, rest),
    }
}

/// The answer of a call of a width, on the case's model. It alone has the model: what it calls is lent it.
fn call<N: Exact>(answer: &mut Answer, case: &Case, word: &str, rest: &str) -> Result<(), Trouble> {
    let model: Model<N> = given::model(answer.alloc, case)?;
    of_model(answer, case, &model, word, rest)
}

/// The answer of a call on a model: of its trees, or of the others.
fn of_model<N: Exact>(
    answer: &mut Answer,
    case: &Case,
    model: &Model<N>,
    word: &str,
    rest: &str,
) -> Result<(), Trouble>
    requires valid { IsValid N.value model.now }
    requires named { IsNamed (robust N.value model.now) }
{
    match word {
        "grow" => tree::grown(answer, model, rest, true),
        "nodes" => tree::grown(answer, model, rest, false),
        "tree" => tree::read(answer, case.bytes(), model, rest),
        _ => of_box(answer, model, word, rest),
    }
}

/// The answer of a call on a model: of its boxes and its other limits, or of the model in whole numbers.
fn of_box<N: Exact>(
    answer: &mut Answer,
    model: &Model<N>,
    word: &str,
    rest: &str,
) -> Result<(), Trouble>
    requires valid { IsValid N.value model.now }
{
    match word {
        "copy" => boxes::copied(answer, model),
        "rule" => boxes::rule(answer, model, rest),
        "below" => boxes::boxed(answer, model, rest, true),
        "above" => boxes::boxed(answer, model, rest, false),
        "with-budget" => sweep::limited(answer, model, rest),
        "sweep" => sweep::swept(answer, model, rest),
        _ => whole::answer(answer, model, word, rest),
    }
}
