//! What the own words of a command say, by their kinds: one thing, or a list with `,` between its parts. A word that
//! names a file or a form may be any plain word.

ghost use Rattle.std.specs.Prelude.{◌≡◌, ◌↔◌, IsTrue, MatchOption, map, string_bytes};
ghost use Rattle.rob_words.specs.Kinds.{AreOfKinds, IsNumber, IsOfKind, IsPart, IsStatement, number_of};
ghost use Rattle.rob_words.specs.Names.{IsListOf};

use crate::cuts::{MOST_CUTS, cut};
use crate::limits::limit;
use crate::names::{MOST_IN_LIST, first_part, is_name};
use crate::verb::Own;

/// Whether each word is one of its kind, at a width with this greatest number.
pub(crate) fn are_of_kinds(kinds: &[Own], words: &[String], greatest: u64) -> bool
    ensures kinds { IsTrue result ↔ AreOfKinds greatest kinds.now (map string_bytes words.now) }
{
    match kinds {
        [kind, kinds @ ..] => match words {
            [word, words @ ..] => {
                is_of_kind(*kind, word.as_str(), greatest) && are_of_kinds(kinds, words, greatest)
            }
            [] => true,
        },
        [] => true,
    }
}

/// Whether the word is one of the kind.
fn is_of_kind(kind: Own, word: &str, greatest: u64) -> bool
    ensures kind { IsTrue result ↔ IsOfKind greatest kind word.now }
{
    match kind {
        Own::Model => true,
        Own::Certificate => true,
        Own::Scenarios => true,
        Own::Number => number(word).is_some(),
        Own::Names => is_list(Own::Names, MOST_IN_LIST, word, greatest),
        Own::Form => true,
        Own::Tree => true,
        Own::Statement => statement(word).is_some(),
        Own::Limit => limit(word, greatest).is_some(),
        Own::Limits => is_list(Own::Limits, MOST_IN_LIST, word, greatest),
        Own::Cuts => is_list(Own::Cuts, MOST_CUTS, word, greatest),
    }
}

/// Whether the word is a list of this kind, of at most so many parts and one at least.
fn is_list(kind: Own, most: usize, word: &str, greatest: u64) -> bool
    ensures list { IsTrue result ↔ IsListOf (IsPart greatest kind) most word.now }
{
    let (first, rest) = first_part(word);
    if most == 0 || !is_part(kind, first, greatest) {
        return false;
    }
    match rest {
        Some(rest) => is_list(kind, most - 1, rest, greatest),
        None => true,
    }
}

/// Whether the word may stand in a list of this kind.
fn is_part(kind: Own, word: &str, greatest: u64) -> bool
    ensures part { IsTrue result ↔ IsPart greatest kind word.now }
{
    match kind {
        Own::Names => is_name(word.as_bytes()),
        Own::Limits => limit(word, greatest).is_some(),
        Own::Cuts => cut(word, greatest).is_some(),
        _ => false,
    }
}

/// The number that a word of 1 to 10 decimal digits spells, where it is below 2^32. It may begin with zeros.
pub fn number(word: &str) -> Option<u32>
    ensures number { MatchOption result
        (IsNumber word.now → ⊥)
        (λ number. IsNumber word.now × (number ≡ number_of word.now)) }
{
    if word.len() > 10 || word.as_bytes().first() == Some(&b'+') {
        return None;
    }
    word.parse::<u32>().ok()
}

/// The number of a statement, which a word of 1 to 3 decimal digits spells. It may begin with zeros.
pub fn statement(word: &str) -> Option<u32>
    ensures statement { MatchOption result
        (IsStatement word.now → ⊥)
        (λ number. IsStatement word.now × (number ≡ number_of word.now)) }
{
    if word.len() > 3 {
        return None;
    }
    number(word)
}
