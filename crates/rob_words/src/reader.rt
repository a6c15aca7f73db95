//! The reader of command lines.

ghost use Rattle.std.specs.Prelude.{IfErr, IfOk, map, option_map, string_bytes};
ghost use Rattle.rob_words.specs.Answers.{HasCause, line_of};
ghost use Rattle.rob_words.specs.Commands.{IsSpelled};
ghost use Rattle.rob_words.specs.Reading.{Judges, Names};
ghost use Rattle.rob_words.specs.Texts.{listed};
ghost use Rattle.rob_words.specs.Values.{route_text, width_text};
ghost use Rattle.rob_words.specs.declared.route.Route.TheVariants.{Dual};
ghost use Rattle.rob_words.specs.declared.width.Width.TheVariants.{SixtyTwo};

use crate::admission::are_admitted;
use crate::grammar::read_texts;
use crate::own_words::are_of_kinds;
use crate::{CommandLine, Route, Verb, Width, WordsErr};
use std::alloc::Global;

/// The command line that the words are, without the program's own name in front.
///
/// `NoCommandLine` comes exactly where they are none, and `Memory` where memory is refused.
pub fn read_words(alloc: Global, words: &[String]) -> Result<CommandLine, WordsErr>
    ensures line { IfOk result (λ line. IsSpelled (map string_bytes words.now) (line_of line)) }
    ensures cause { IfErr result (HasCause (map string_bytes words.now)) }
{
    let verb = verb(words)?;
    if !are_admitted(words) {
        return Err(WordsErr::NoCommandLine);
    }
    let texts = read_texts(alloc, verb, words)?;
    let width = width(texts.bits)?;
    if !are_of_kinds(verb.own(), texts.own.as_slice(), width.greatest()) {
        return Err(WordsErr::NoCommandLine);
    }
    let route = route(texts.route)?;
    Ok(CommandLine {
        verb,
        own: texts.own,
        route,
        width,
    })
}

/// The command that the first word names.
fn verb(words: &[String]) -> Result<Verb, WordsErr>
    ensures named { Names (map string_bytes words.now) result }
{
    match words {
        [name, ..] => Verb::named(name.as_str()).ok_or(WordsErr::NoCommandLine),
        [] => Err(WordsErr::NoCommandLine),
    }
}

fn width(text: Option<&str>) -> Result<Width, WordsErr>
    ensures judged { Judges width_text SixtyTwo
        (listed (option_map (λ s. s.now) text.entry)) result }
{
    match text {
        Some(text) => Width::spelled(text).ok_or(WordsErr::NoCommandLine),
        None => Ok(Width::SixtyTwo),
    }
}

fn route(text: Option<&str>) -> Result<Route, WordsErr>
    ensures judged { Judges route_text Dual (listed (option_map (λ s. s.now) text.entry)) result }
{
    match text {
        Some(text) => Route::spelled(text).ok_or(WordsErr::NoCommandLine),
        None => Ok(Route::Dual),
    }
}
