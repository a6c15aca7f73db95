//! What stands behind the name of a command, read by `clap`.

ghost use Rattle.std.specs.Prelude.{◌≡◌, ◌<◌, ◌++◌, IfErr, IfOk, false, length, map, option_map, string_bytes};
ghost use Rattle.clap.specs.Words.{app_of, rule_of, with_rule};
ghost use Rattle.rob_words.specs.Grammar as spec;
ghost use Rattle.rob_words.specs.Grammar.{Finds, grammar, own_word, setting};
ghost use Rattle.rob_words.specs.Texts.{AreAdmitted, HasNoTexts, HoldsBehind, holding_of, listed};

use crate::WordsErr;
use crate::verb::{Own, Verb};
use clap::error::ErrorKind;
use clap::{Arg, ArgMatches, Command};
use std::alloc::{AllocError, Global};

/// The texts of a command's words: its own words, and the values of its options.
#[derive(Debug, Drop)]
pub(crate) struct Texts<'a> {
    pub(crate) own: Vec<String>,
    pub(crate) bits: Option<&'a str>,
    pub(crate) route: Option<&'a str>,
}

/// The texts of words, the first of which is the command's name.
pub(crate) fn read_texts<'a>(
    alloc: Global,
    verb: Verb,
    words: &'a [String],
) -> Result<Texts<'a>, WordsErr>
    requires named { 0 < length words.now }
    requires admitted { AreAdmitted (map string_bytes words.now) }
    ensures texts { IfOk result (λ texts.
        HoldsBehind verb (map string_bytes words.now) (holding_of texts)) }
    ensures cause { IfErr result (HasNoTexts verb (map string_bytes words.now)) }
{
    let command = command(alloc, verb)?;
    match command.try_get_matches_from(words) {
        Ok(matches) => Ok(texts_of(alloc, &matches)?),
        Err(error) if error.kind() == ErrorKind::OutOfMemory => Err(WordsErr::Memory),
        Err(_) => Err(WordsErr::NoCommandLine),
    }
}

/// The texts in what was found.
fn texts_of<'a>(alloc: Global, matches: &ArgMatches<'a>) -> Result<Texts<'a>, AllocError>
    ensures found { IfOk result (λ texts. Finds matches.now (holding_of texts)) }
{
    let mut own = Vec::new(alloc);
    add(alloc, &mut own, matches.get_str("first"))?;
    add(alloc, &mut own, matches.get_str("second"))?;
    add(alloc, &mut own, matches.get_str("third"))?;
    Ok(Texts {
        own,
        bits: matches.get_str("bits"),
        route: matches.get_str("route"),
    })
}

/// Adds a word, where there is one.
fn add(alloc: Global, own: &mut Vec<String>, word: Option<&str>) -> Result<(), AllocError>
    ensures added { IfOk result (λ _. map string_bytes own.new.items
        ≡ map string_bytes own.old.items ++ listed (option_map (λ s. s.now) word.entry)) }
{
    if let Some(word) = word {
        own.push(String::from_str(alloc, word)?)?;
    }
    Ok(())
}

/// The command as `clap` reads it.
fn command<'a>(alloc: Global, verb: Verb) -> Result<Command<'a>, AllocError>
    ensures grammar { IfOk result (λ command. app_of command ≡ grammar verb) }
{
    let command = Command::new(alloc, "robust").disable_help_flag(true);
    let command = command.arg(option(alloc, "bits"))?;
    let command = with_route(alloc, command, verb.takes_route())?;
    with_words(alloc, command, verb.own())
}

/// The command with the option `route`, or without it.
fn with_route<'a>(
    alloc: Global,
    command: Command<'a>,
    takes: bool,
) -> Result<Command<'a>, AllocError>
    ensures grammar { IfOk result (λ r. app_of r ≡ spec.with_route takes (app_of command.entry)) }
{
    if takes {
        command.arg(option(alloc, "route"))
    } else {
        Ok(command)
    }
}

/// The command with a required word for each of its own.
fn with_words<'a>(
    alloc: Global,
    command: Command<'a>,
    own: &[Own],
) -> Result<Command<'a>, AllocError>
    ensures grammar { IfOk result (λ r. app_of r ≡ spec.with_words own.now (app_of command.entry)) }
{
    match own {
        [] => Ok(command),
        [_] => with_word(alloc, command, "first"),
        [_, _] => with_word(alloc, with_word(alloc, command, "first")?, "second"),
        [_, _, _, ..] => {
            let command = with_word(alloc, command, "first")?;
            let command = with_word(alloc, command, "second")?;
            with_word(alloc, command, "third")
        }
    }
}

/// The command with one more required word.
fn with_word<'a>(
    alloc: Global,
    command: Command<'a>,
    name: &'a str,
) -> Result<Command<'a>, AllocError>
    ensures word { IfOk result (λ r. app_of r
        ≡ with_rule (app_of command.entry) (own_word name.now)) }
{
    command.arg(positional(alloc, name))
}

/// An option `--name` with one value.
fn option<'a>(alloc: Global, name: &'a str) -> Arg<'a>
    ensures rule { rule_of result ≡ setting name.now }
    ensures local { result.global ≡ false }
{
    Arg::new(alloc, name).long(name)
}

/// A word of the command's own.
fn positional<'a>(alloc: Global, name: &'a str) -> Arg<'a>
    ensures rule { rule_of result ≡ own_word name.now }
    ensures local { result.global ≡ false }
{
    Arg::new(alloc, name).required(true)
}
