//! The first words of the lines that give something to calls.

ghost use Rattle.std.specs.Prelude.{◌≡◌, MatchOption};
ghost use Rattle.rob_case.specs.Cases.{word_text};
ghost use Rattle.rob_case.specs.declared.word.Word.{Word};

/// What a line gives, by its first word.
#[derive(Clone, Copy)]
pub(crate) enum Word {
    /// Nothing: the line is empty.
    Nothing,
    /// Nothing: it is a remark.
    Remark,
    /// The name of the case.
    Case,
    /// Bytes.
    Text,
    /// Bytes with a line end behind them.
    Line,
    /// Bytes so many times.
    Times,
    /// So many lines.
    Lines,
    /// The bytes so far as the model's text.
    Model,
    /// The columns of the plan.
    Plan,
}

impl Word {
    /// What a line with this first word gives.
    pub(crate) fn spelled(word: &str) -> Option<Word>
        ensures spelled { MatchOption result
            ((known : Word) → word.now ≡ word_text known → ⊥)
            (λ known. word.now ≡ word_text known) }
    {
        match word {
            "" => Some(Word::Nothing),
            "#" => Some(Word::Remark),
            "case" => Some(Word::Case),
            "text" => Some(Word::Text),
            "line" => Some(Word::Line),
            "times" => Some(Word::Times),
            "lines" => Some(Word::Lines),
            "model" => Some(Word::Model),
            "plan" => Some(Word::Plan),
            _ => None,
        }
    }
}
