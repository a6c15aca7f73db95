//! The own words of a command that name no file, and the variables that a list of names names.

ghost use Rattle.std.specs.Prelude.{◌≡◌, ◌<◌, ◌↔◌, List, IfOk, IsTrue, MatchOption, Some, length, map, option_map, string_bytes, ℕ};
ghost use Rattle.rob_cert.specs.Spelling.{name_at};
ghost use Rattle.rob_meaning.specs.Named.{IsNamed};
ghost use Rattle.rob_meaning.specs.Names.{column_names};
ghost use Rattle.rob_model.specs.Valid.{IsValid};
ghost use Rattle.rob_model.specs.View.{robust};
ghost use Rattle.rob_reach.specs.Trees.{IsIn};
ghost use Rattle.rob_top.specs.Files as files;
ghost use Rattle.rob_top.specs.Inputs.{AreVariables};
ghost use Rattle.rob_words.specs.Names.{parts_of};
ghost use Rattle.rob_words.specs.Values.{Word};
ghost use Rattle.rob_words.specs.Verbs.{own_of};

use rob_model::{Model, find_column};
use rob_number::{Exact, List, Memory};
use rob_words::{Own, Verb, first_part};
use std::alloc::Global;

/// The first of a command's own words that is of the kind; empty, where there is no such word.
pub fn own_word(kind: Own, verb: Verb, words: &[String]) -> &str
    ensures word { (word : Word) → files.word_of kind (own_of verb) (map string_bytes words.now)
        ≡ Some word
        → result.now ≡ word }
{
    match word_of(kind, verb.own(), words) {
        Some(word) => word,
        None => "",
    }
}

/// The first own word of the kind.
fn word_of<'a>(kind: Own, kinds: &[Own], words: &'a [String]) -> Option<&'a str>
    ensures word { option_map (λ word. word.now) result
        ≡ files.word_of kind kinds.now (map string_bytes words.entry.now) }
{
    match kinds {
        [other, kinds @ ..] => match words {
            [word, words @ ..] => {
                if *other == kind {
                    Some(word.as_str())
                } else {
                    word_of(kind, kinds, words)
                }
            }
            [] => None,
        },
        [] => None,
    }
}

/// The numbers of the variables that a list of names names, in its order; `None` where a name is no variable's, or
/// stands twice.
pub fn variables_of<N: Exact>(
    alloc: Global,
    model: &Model<N>,
    names: &str,
) -> Result<Option<List<u32>>, Memory>
    requires valid { IsValid N.value model.now }
    requires named { IsNamed (robust N.value model.now) }
    ensures numbers { IfOk result (λ found. MatchOption found
        ((numbers : List ℕ) → AreVariables (robust N.value model.now) (parts_of names.now) numbers
        → ⊥)
        (λ numbers. AreVariables (robust N.value model.now) (parts_of names.now) numbers)) }
{
    let mut numbers = List::new(alloc);
    let mut rest = Some(names);
    while let Some(word) = rest {
        let (name, behind) = first_part(word);
        let Some(number) = variable_of(model, name) else {
            return Ok(None);
        };
        if has(numbers.items(), number) {
            return Ok(None);
        }
        numbers.push(number)?;
        rest = behind;
    }
    Ok(Some(numbers))
}

/// The number of the variable of that name.
fn variable_of<N: Exact>(model: &Model<N>, name: &str) -> Option<u32>
    requires valid { IsValid N.value model.now }
    requires named { IsNamed (robust N.value model.now) }
    ensures number { MatchOption result
        ((k : ℕ) → k < length (robust N.value model.now).variables
        → name_at (column_names (robust N.value model.now)) k ≡ name.now → ⊥)
        (λ number. (number < length (robust N.value model.now).variables)
        × (name_at (column_names (robust N.value model.now)) number ≡ name.now)
        × ((k : ℕ) → k < length (robust N.value model.now).variables
        → name_at (column_names (robust N.value model.now)) k ≡ name.now → k ≡ number)) }
{
    let column = find_column(model, name.as_bytes())?;
    if (column as usize) < model.vars.items().len() {
        Some(column)
    } else {
        None
    }
}

/// Whether the number is in the list.
fn has(numbers: &[u32], number: u32) -> bool
    ensures has { IsTrue result ↔ IsIn number numbers.now }
{
    match numbers {
        [other, numbers @ ..] => *other == number || has(numbers, number),
        [] => false,
    }
}
