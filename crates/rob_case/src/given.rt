//! The lines of a case that give something to the calls behind.

ghost use Rattle.std.specs.Prelude.{◌≡◌, ◌≢◌, false};
ghost use Rattle.rob_case.specs.Answers.{Answers};
ghost use Rattle.rob_case.specs.Cases.{given, word_text};
ghost use Rattle.rob_case.specs.declared.word.Word.{Word};

use crate::case::Case;
use crate::trouble::Trouble;
use crate::word::Word;
use std::alloc::Global;

/// Takes a line that gives something to the calls; false where it is another. After an error the case is open.
pub fn give(alloc: Global, case: &mut Case, word: &str, rest: &str) -> Result<bool, Trouble>
    // A line of a word of the table is taken, or it is not of the format, or memory was refused.
    ensures taken { (known : Word) → word.now ≡ word_text known
        → Answers (given known rest.now case.old) (λ _. case.new) result × (result ≢ Ok false) }
    ensures other { ((known : Word) → word.now ≡ word_text known → ⊥)
        → (result ≡ Ok false) × (case.new ≡ case.old) }
{
    match Word::spelled(word) {
        Some(known) => {
            case.take(alloc, known, rest)?;
            Ok(true)
        }
        None => Ok(false),
    }
}
