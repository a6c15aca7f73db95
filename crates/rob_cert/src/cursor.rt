//! Lines and words of a text.

ghost use Rattle.std.specs.Prelude.{◌≡◌, ◌≢◌, ◌∷◌, ◌++◌, [], List, ℕ, length, MatchOption, slice_index, take, ◌<◌};
ghost use Rattle.rob_cert.specs.Reading.{Lacks, words_in};

/// A text cut at a byte.
#[derive(Clone, Copy, Debug)]
pub struct Split<'a> {
    /// What stands before the byte.
    pub front: &'a [u8],
    /// What stands behind it.
    pub back: &'a [u8],
}

/// The place of the first such byte.
fn find_byte(text: &[u8], byte: u8) -> Option<usize>
    ensures found { MatchOption result (Lacks byte text.now) (λ i. (i < length text.now)
        × (slice_index text.now i ≡ byte) × Lacks byte (take i text.now)) }
{
    for (i, b) in text.iter().enumerate() {
        if *b == byte {
            return Some(i);
        }
    }
    None
}

/// Cuts a text at the first such byte.
pub fn split_byte(text: &[u8], byte: u8) -> Option<Split<'_>>
    ensures cut { MatchOption result (Lacks byte text.now)
        (λ s. (text.now ≡ s.front.now ++ byte ∷ s.back.now) × Lacks byte s.front.now) }
{
    let i = find_byte(text, byte)?;
    Some(Split {
        front: &text[..i],
        back: &text[i + 1..],
    })
}

/// A line of two words.
#[derive(Clone, Copy, Debug)]
pub struct Two<'a> {
    pub first: &'a [u8],
    pub second: &'a [u8],
}

/// A line of three words.
#[derive(Clone, Copy, Debug)]
pub struct Three<'a> {
    pub first: &'a [u8],
    pub second: &'a [u8],
    pub third: &'a [u8],
}

/// A line of four words.
#[derive(Clone, Copy, Debug)]
pub struct Four<'a> {
    pub first: &'a [u8],
    pub second: &'a [u8],
    pub third: &'a [u8],
    pub fourth: &'a [u8],
}

/// The words of a line that has two.
pub fn two_words(line: &[u8]) -> Option<Two<'_>>
    ensures words { MatchOption result (length (words_in line.now) ≢ 2)
        (λ w. words_in line.now ≡ w.first.now ∷ (w.second.now ∷ [])) }
{
    match split_byte(line, b' ') {
        None => None,
        Some(split) => match split_byte(split.back, b' ') {
            None => Some(Two {
                first: split.front,
                second: split.back,
            }),
            Some(_) => None,
        },
    }
}

/// The words of a line that has three.
pub fn three_words(line: &[u8]) -> Option<Three<'_>>
    ensures words { MatchOption result (length (words_in line.now) ≢ 3)
        (λ w. words_in line.now ≡ w.first.now ∷ (w.second.now ∷ (w.third.now ∷ []))) }
{
    match split_byte(line, b' ') {
        None => None,
        Some(split) => match two_words(split.back) {
            None => None,
            Some(words) => Some(Three {
                first: split.front,
                second: words.first,
                third: words.second,
            }),
        },
    }
}

/// The words of a line that has four.
pub fn four_words(line: &[u8]) -> Option<Four<'_>>
    ensures words { MatchOption result (length (words_in line.now) ≢ 4)
        (λ w. words_in line.now
        ≡ w.first.now ∷ (w.second.now ∷ (w.third.now ∷ (w.fourth.now ∷ [])))) }
{
    match split_byte(line, b' ') {
        None => None,
        Some(split) => match three_words(split.back) {
            None => None,
            Some(words) => Some(Four {
                first: split.front,
                second: words.first,
                third: words.second,
                fourth: words.third,
            }),
        },
    }
}

/// The first word of a line.
pub fn first_word(line: &[u8]) -> &[u8]
    ensures word { (more : List (List ℕ)) × (words_in line.now ≡ result.now ∷ more) }
{
    match split_byte(line, b' ') {
        Some(split) => split.front,
        None => line,
    }
}
