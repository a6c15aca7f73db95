//! Limits of a budget, each in a word.

ghost use Rattle.std.specs.Prelude.{◌≡◌, MatchOption};
ghost use Rattle.rob_words.specs.Limits.{IsDivisor, IsLimit, IsWhole, denominator_of, numerator_of};
ghost use Rattle.std.specs.Str.Parse.{digits_value};

/// The limit that a word spells, as its numerator and its denominator, which isn't 0. Both are at most the greatest
/// number.
pub fn limit(word: &str, greatest: u64) -> Option<(u64, u64)>
    ensures limit { MatchOption result
        (IsLimit greatest word.now → ⊥)
        (λ parts. IsLimit greatest word.now
        × ((parts.0 ≡ numerator_of word.now) × (parts.1 ≡ denominator_of word.now))) }
{
    match word.split_once('/') {
        None => whole(word, greatest).map(|number| (number, 1)),
        Some((above, below)) => {
            let numerator = whole(above, greatest)?;
            let denominator = divisor(below, greatest)?;
            Some((numerator, denominator))
        }
    }
}

/// The whole number that a word of decimal digits spells, where it is at most the greatest one.
fn whole(word: &str, greatest: u64) -> Option<u64>
    ensures whole { MatchOption result
        (IsWhole greatest word.now → ⊥)
        (λ number. IsWhole greatest word.now × (number ≡ digits_value 10 word.now)) }
{
    if word.as_bytes().first() == Some(&b'+') {
        return None;
    }
    match word.parse::<u64>() {
        Ok(number) => if number <= greatest {
            Some(number)
        } else {
            None
        },
        Err(_) => None,
    }
}

/// The same where it isn't 0.
fn divisor(word: &str, greatest: u64) -> Option<u64>
    ensures divisor { MatchOption result
        (IsDivisor greatest word.now → ⊥)
        (λ number. IsDivisor greatest word.now × (number ≡ digits_value 10 word.now)) }
{
    match whole(word, greatest) {
        Some(number) => if number == 0 { None } else { Some(number) },
        None => None,
    }
}
