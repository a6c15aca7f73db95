//! Words that no command line has at any place.

ghost use Rattle.std.specs.Prelude.{◌↔◌, IsTrue, map, string_bytes};
ghost use Rattle.rob_words.specs.Texts.{AreAdmitted, IsAdmitted, IsLong};

/// Whether each word may stand at some place.
pub(crate) fn are_admitted(words: &[String]) -> bool
    ensures admitted { IsTrue result ↔ AreAdmitted (map string_bytes words.now) }
{
    for word in words {
        if !is_admitted(word.as_str()) {
            return false;
        }
    }
    true
}

/// It isn't empty, `-` or `--`, and where it begins with `-`, it begins with `--`.
fn is_admitted(word: &str) -> bool
    ensures admitted { IsTrue result ↔ IsAdmitted word.now }
{
    match word.as_bytes() {
        [first, rest @ ..] => *first != b'-' || is_long(rest),
        [] => false,
    }
}

/// Bytes behind a `-` make an option of more bytes than `--`.
fn is_long(rest: &[u8]) -> bool
    ensures long { IsTrue result ↔ IsLong rest.now }
{
    match rest {
        [first, _, ..] => *first == b'-',
        _ => false,
    }
}
