//! The limits of a budget among a command's own words.

ghost use Rattle.std.specs.Prelude.{◌≡◌, ◌≤◌, IfOk, MatchOption, length, map};
ghost use Rattle.rob_top.specs.Swept.{limit_value};
ghost use Rattle.rob_words.specs.Limits.{IsLimit, IsLimitList};
ghost use Rattle.rob_words.specs.Names.{parts_of};

use rob_number::exact::fraction;
use rob_number::{Exact, Ledger, List, Memory};
use rob_words::{MOST_IN_LIST, first_part, limit};
use std::alloc::Global;

/// The limit that a word spells, where it is a limit at this width.
pub fn limit_of<N: Exact, L: Ledger>(word: &str, ledger: &mut L) -> Option<N>
    ensures limit { MatchOption result
        (IsLimit N.limit word.now → ⊥)
        (λ limit. IsLimit N.limit word.now × (N.value limit ≡ limit_value word.now)) }
    ensures counted { L.wides ledger.old ≤ L.wides ledger.new }
{
    match limit(word, N::LIMIT as u64) {
        Some((numerator, denominator)) => Some(fraction(numerator, denominator, ledger)),
        None => None,
    }
}

/// The limits that a word spells, 1 to 20 with `,` between them, where each is one at this width.
pub fn limits_of<N: Exact, L: Ledger>(
    alloc: Global,
    word: &str,
    ledger: &mut L,
) -> Result<Option<List<N>>, Memory>
    ensures limits { IfOk result (λ found. MatchOption found
        (IsLimitList N.limit word.now → ⊥)
        (λ limits. (map N.value limits ≡ map limit_value (parts_of word.now))
        × (length limits ≤ 20))) }
    ensures counted { L.wides ledger.old ≤ L.wides ledger.new }
{
    let mut limits = List::new(alloc);
    let mut rest = Some(word);
    while let Some(word) = rest {
        let (first, behind) = first_part(word);
        if limits.items().len() == MOST_IN_LIST {
            return Ok(None);
        }
        let Some(limit) = limit_of(first, ledger) else {
            return Ok(None);
        };
        limits.push(limit)?;
        rest = behind;
    }
    Ok(Some(limits))
}
