//! The parts of a word with `,` between them, and names.

ghost use Rattle.std.specs.Prelude.{◌≡◌, ◌↔◌, ◌∷◌, ◌<◌, IfSome, IsTrue, drop, is_some, length, option_map};
ghost use Rattle.rob_lex.specs.Bytes as classes;
ghost use Rattle.rob_syntax.specs.Names.{GoesOn, IsWord};
ghost use Rattle.rob_syntax.specs.Symbols.{keyword_among, keywords};
ghost use Rattle.rob_words.specs.Names.{IsName, parts_behind, parts_of};

/// The most names or limits that a word may list.
pub const MOST_IN_LIST: usize = 20;

/// The part of a word in front of its first comma, and what stands behind that comma, where there is one.
#[tactic(auto, using(crate::proofs::CommaLemmas::first_part_at, crate::proofs::CommaLemmas::first_part_all))]
pub fn first_part(word: &str) -> (&str, Option<&str>)
    ensures parts { parts_of word.now ≡ result.0.now
        ∷ parts_behind (option_map (λ rest. rest.now) result.1) }
    ensures shorter { IfSome result.1 (λ rest. length rest.now < length word.now) }
{
    match word.split_once(',') {
        Some((first, rest)) => (first, Some(rest)),
        None => (word, None),
    }
}

/// Whether the word is a name.
pub(crate) fn is_name(word: &[u8]) -> bool
    ensures name { IsTrue result ↔ IsName word.now }
{
    is_word(word) && !is_keyword(word)
}

/// Whether the word is a letter or `_`, and then letters, digits and `_`.
fn is_word(word: &[u8]) -> bool
    ensures word { IsTrue result ↔ IsWord word.now }
{
    match word {
        [first, rest @ ..] => begins_word(*first) && go_on(rest),
        [] => false,
    }
}

/// Whether each byte goes on a word.
fn go_on(bytes: &[u8]) -> bool
    ensures all { IsTrue result ↔ GoesOn bytes.now }
{
    for byte in bytes {
        if !goes_on_word(*byte) {
            return false;
        }
    }
    true
}

/// Whether a word begins with the byte.
fn begins_word(byte: u8) -> bool
    ensures class { result ≡ classes.begins_word byte }
{
    matches!(byte, b'a'..=b'z' | b'A'..=b'Z' | b'_')
}

/// Whether a word goes on with the byte.
fn goes_on_word(byte: u8) -> bool
    ensures class { result ≡ classes.goes_on_word byte }
{
    begins_word(byte) || matches!(byte, b'0'..=b'9')
}

/// Whether the word is a keyword of model texts: the names of parts first.
fn is_keyword(word: &[u8]) -> bool
    ensures keyword { result ≡ is_some (keyword_among keywords word.now) }
{
    word == b"uncertain".as_slice()
        || word == b"set".as_slice()
        || word == b"budget".as_slice()
        || word == b"var".as_slice()
        || word == b"adaptive".as_slice()
        || is_goal_or_row(word)
}

/// Whether it is one of the goals, `row`, or one behind these.
fn is_goal_or_row(word: &[u8]) -> bool
    ensures keyword { result ≡ is_some (keyword_among (drop 5 keywords) word.now) }
{
    word == b"minimise".as_slice()
        || word == b"minimize".as_slice()
        || word == b"maximise".as_slice()
        || word == b"maximize".as_slice()
        || word == b"row".as_slice()
        || is_inside(word)
}

/// Whether it is one that stands inside a statement, or one behind these.
fn is_inside(word: &[u8]) -> bool
    ensures keyword { result ≡ is_some (keyword_among (drop 10 keywords) word.now) }
{
    word == b"in".as_slice()
        || word == b"at".as_slice()
        || word == b"by".as_slice()
        || word == b"over".as_slice()
        || is_unused(word)
}

/// Whether it is one that no statement has.
fn is_unused(word: &[u8]) -> bool
    ensures keyword { result ≡ is_some (keyword_among (drop 14 keywords) word.now) }
{
    word == b"objective".as_slice()
        || word == b"tau".as_slice()
        || word == b"model".as_slice()
        || word == b"sum".as_slice()
        || word == b"for".as_slice()
        || word == b"to".as_slice()
}
