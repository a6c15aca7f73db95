//! A line of an entry: its kind, a name and a number.

ghost use Rattle.std.specs.Prelude.{◌≡◌, ◌↔◌, codes, IsTrue, MatchOption, MatchResult};
ghost use Rattle.rob_number.specs.Counts.{NeverFell};
ghost use Rattle.rob_cert.specs.NamesView.{naming};
ghost use Rattle.rob_cert.specs.Reading.{BeginsWithLine, words_in};
ghost use Rattle.rob_cert.specs.ReaderLines.{HasFirst, HasNoLineOf};
ghost use Rattle.rob_cert.specs.Entries.{HasEntryFault, IsEntry};
ghost use Rattle.rob_cert.specs.Spelling.{vector_word};

use crate::cursor::{Split, first_word, split_byte, three_words};
use crate::error::Offence;
use crate::find::find_entry;
use crate::kind::Vector;
use crate::names::Names;
use crate::number::read_number;
use rob_number::{Exact, Ledger};

/// An entry of a vector: its place and its number.
#[derive(Clone, Copy, Debug)]
pub struct Entry<N> {
    pub place: usize,
    pub number: N,
}

/// The next line, where its first word is that word, and what stands behind it.
pub fn next_of<'a>(text: &'a [u8], word: &[u8]) -> Option<Split<'a>>
    ensures found { MatchOption result (HasNoLineOf word.now text.now)
        (λ s. BeginsWithLine text.now s.front.now s.back.now × HasFirst word.now s.front.now) }
{
    match split_byte(text, b'\n') {
        None => None,
        Some(split) => {
            if first_word(split.front) == word {
                Some(split)
            } else {
                None
            }
        }
    }
}

/// Whether a word is the canonical 0.
pub fn is_zero_word(word: &[u8]) -> bool
    ensures zero { IsTrue result ↔ (word.now ≡ codes "0") }
{
    word == b"0".as_slice()
}

/// The entry that a line of that kind tells, at a place from `least` on.
pub fn read_entry<N: Exact, L: Ledger>(
    line: &[u8],
    vector: Vector,
    names: &Names,
    least: usize,
    ledger: &mut L,
) -> Result<Entry<N>, Offence>
    requires first { HasFirst (vector_word vector) line.now }
    ensures entry { MatchResult result
        (λ e. IsEntry (naming names.now) N.limit vector least (words_in line.now) e.place
        (N.value e.number))
        (λ o. HasEntryFault (naming names.now) N.limit vector least (words_in line.now) o) }
    ensures counted { NeverFell L.ops L.wides ledger.old ledger.new }
{
    match three_words(line) {
        None => Err(Offence::NoLine),
        Some(words) => match find_entry(names, vector, least, words.second) {
            None => Err(Offence::NoShape),
            Some(place) => {
                if is_zero_word(words.third) {
                    return Err(Offence::NoShape);
                }
                match read_number(words.third, ledger) {
                    None => Err(Offence::NoNumber),
                    Some(number) => Ok(Entry { place, number }),
                }
            }
        },
    }
}
