//! The calls of the cases.

ghost use Rattle.rob_meaning.specs.Named.{IsNamed};
ghost use Rattle.rob_model.specs.Valid.{IsValid};
ghost use Rattle.rob_model.specs.View.{robust};

use crate::{cert, lex, model, parse, replay};
use rob_case::numbers::small;
use rob_case::{Calls, Case, Trouble};
use rob_model::Model;
use rob_number::{Exact, Frac};
use std::alloc::Global;

/// A width of 8 bits, and one of 62.
type Eight = Frac<8>;

type Most = Frac<62>;

/// The libraries of texts and models.
pub(crate) struct Libraries;

impl Calls<HostRuntime> for Libraries {
    fn answer(rt: &HostRuntime, case: &Case, word: &str, rest: &str) -> Result<String, Trouble> {
        if let Some(answer) = of_text(rt.alloc(), case, word, rest)? {
            return Ok(answer);
        }
        match word {
            "policy-8" => on_model::<Eight>(rt.alloc(), case, "policy", rest),
            "replay-8" => on_model::<Eight>(rt.alloc(), case, "replay", rest),
            _ => on_model::<Most>(rt.alloc(), case, word, rest),
        }
    }
}

/// Calls on the text.
fn of_text(alloc: Global, case: &Case, word: &str, rest: &str) -> Result<Option<String>, Trouble> {
    match word {
        "tokens" => Ok(Some(lex::count(alloc, case.bytes())?)),
        "token" => Ok(Some(lex::token(alloc, case.bytes(), small(rest)?)?)),
        "tokens-of-bytes" => Ok(Some(lex::every_byte(alloc)?)),
        "statements" => Ok(Some(parse::statements(alloc, case.bytes())?)),
        "statements-of-bytes" => Ok(Some(parse::every_byte(alloc)?)),
        "sizes-8" => Ok(Some(parse::sizes::<Eight>(alloc, case.bytes())?)),
        "canonical" => Ok(Some(parse::canonical::<Most>(alloc, case.bytes())?)),
        "same-model" => Ok(Some(parse::same::<Most>(alloc, case)?)),
        _ => Ok(None),
    }
}

/// The answer of a call on the case's model, with numbers of a width. It alone has the model: what it calls is lent it.
fn on_model<N: Exact>(
    alloc: Global,
    case: &Case,
    word: &str,
    rest: &str,
) -> Result<String, Trouble> {
    let model: Model<N> = parse::model(alloc, case.model())?;
    of_model(alloc, case, &model, word, rest)
}

/// The answer of a call on a model: on its values and names, or on a file beside it.
fn of_model<N: Exact>(
    alloc: Global,
    case: &Case,
    model: &Model<N>,
    word: &str,
    rest: &str,
) -> Result<String, Trouble>
    requires valid { IsValid N.value model.now }
    requires named { IsNamed (robust N.value model.now) }
{
    match word {
        "admits" => model::admitted(alloc, model, rest),
        "first-broken" => model::broken(alloc, model, rest),
        "policy" => model::policy(alloc, case, model, rest),
        "objective" => model::objective(alloc, case, model, rest),
        "counts" => model::counts(alloc, model),
        "find" => model::found(alloc, model, rest),
        "name" => model::named(alloc, model, rest),
        _ => of_file(alloc, case, model, word),
    }
}

/// The answer of a call on a certificate or a scenario file of a model.
fn of_file<N: Exact>(
    alloc: Global,
    case: &Case,
    model: &Model<N>,
    word: &str,
) -> Result<String, Trouble>
    requires valid { IsValid N.value model.now }
    requires named { IsNamed (robust N.value model.now) }
{
    match word {
        "certificate" => cert::certificate(alloc, model, case.bytes(), false),
        "certificate-parts" => cert::certificate(alloc, model, case.bytes(), true),
        "certificate-prefixes" => cert::prefixes(alloc, model, case.bytes()),
        "replay" => replay::table(alloc, case, model, true),
        "replay-length" => replay::table(alloc, case, model, false),
        "replay-prefixes" => replay::prefixes(alloc, case, model),
        _ => Err(Trouble::Line),
    }
}
