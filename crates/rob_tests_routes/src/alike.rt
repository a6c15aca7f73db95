//! One model with the plain number type and with the quick one: what `solve` and `prove` print of it is the same.

ghost use Rattle.rob_model.specs.Valid.{IsValid};

use crate::answer::Answer;
use crate::cuts::ended;
use crate::stops::{LINE_END, stopped};
use crate::{given, whole};
use rob_case::{Case, Trouble};
use rob_dualize::solve_model;
use rob_model::Model;
use rob_number::{Exact, Tally};

/// Whether the case's model is answered alike with both number types by a route, and the first line of the answer.
pub(crate) fn compared<P: Exact, Q: Exact>(
    answer: &mut Answer,
    case: &Case,
    route: &str,
) -> Result<(), Trouble> {
    let mut plain = Answer::new(answer.alloc);
    answered::<P>(&mut plain, case, route)?;
    with_plain::<Q>(answer, case, route, plain.text.as_str())
}

/// Whether it is answered with this number type as with the plain one.
fn with_plain<Q: Exact>(
    answer: &mut Answer,
    case: &Case,
    route: &str,
    plain: &str,
) -> Result<(), Trouble> {
    let mut quick = Answer::new(answer.alloc);
    answered::<Q>(&mut quick, case, route)?;
    told(answer, plain, quick.text.as_str())
}

/// Whether two answers are alike, and the first line of the first one.
fn told(answer: &mut Answer, plain: &str, quick: &str) -> Result<(), Trouble> {
    answer.say(word(plain == quick))?;
    let (first, _) = plain.split_once(LINE_END).unwrap_or((plain, ""));
    answer.say(first)
}

/// The word for two answers that are alike, or that aren't.
fn word(alike: bool) -> &'static str {
    if alike { "alike: " } else { "not alike: " }
}

/// What a route prints of the case's model with these numbers. It alone has the model: what it calls is lent it.
fn answered<N: Exact>(answer: &mut Answer, case: &Case, route: &str) -> Result<(), Trouble> {
    let model: Model<N> = given::model(answer.alloc, case)?;
    by_route(answer, &model, route)
}

/// What a route prints of a model.
fn by_route<N: Exact>(answer: &mut Answer, model: &Model<N>, route: &str) -> Result<(), Trouble>
    requires valid { IsValid N.value model.now }
{
    match route {
        "dual" => by_counterpart(answer, model),
        "cuts" => whole::answer(answer, model, "cuts-text", ""),
        _ => Err(Trouble::Line),
    }
}

/// What comes of a model by its robust counterpart.
fn by_counterpart<N: Exact>(answer: &mut Answer, model: &Model<N>) -> Result<(), Trouble>
    requires valid { IsValid N.value model.now }
{
    match solve_model(answer.alloc, model, &mut Tally::new()) {
        Ok(cert) => ended(answer, model, cert, &[], true),
        Err(stop) => stopped(answer, stop, true),
    }
}
