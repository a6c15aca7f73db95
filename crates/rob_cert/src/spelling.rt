//! Numbers and lines as they are spelled.

ghost use Rattle.std.specs.Fmt.{decimal, signed_decimal};
ghost use Rattle.std.specs.Prelude.{◌≡◌, ◌∷◌, ◌++◌, [], ◌<ℤ◌, codes, pos, nat_abs, OnOk};
ghost use Rattle.rob_cert.specs.Spelling.{number_text, spaced};

use itoa::Buffer;
use rob_number::{Exact, Memory, Text};

/// Appends a number in lowest terms.
pub fn put_number<N: Exact>(out: &mut Text, number: N) -> Result<(), Memory>
    ensures appended { OnOk result (out.new ≡ out.old ++ number_text (N.value number)) }
{
    let mut buffer = Buffer::new();
    out.push(buffer.format(number.num()).as_bytes())?;
    if number.den() != 1 {
        return put_denominator(out, number.den());
    }
    Ok(())
}

/// Appends a whole number.
pub fn put_whole(out: &mut Text, number: i64) -> Result<(), Memory>
    ensures appended { OnOk result (out.new ≡ out.old ++ signed_decimal number) }
{
    let mut buffer = Buffer::new();
    out.push(buffer.format(number).as_bytes())
}

/// Appends a number of things, in decimal digits.
pub fn put_count(out: &mut Text, count: u64) -> Result<(), Memory>
    ensures appended { OnOk result (out.new ≡ out.old ++ decimal count) }
{
    let mut buffer = Buffer::new();
    out.push(buffer.format(count).as_bytes())
}

/// Appends a slash and a denominator.
fn put_denominator(out: &mut Text, denominator: i64) -> Result<(), Memory>
    requires positive { pos 0 <ℤ denominator }
    ensures appended { OnOk result (out.new
        ≡ out.old ++ (codes "/" ++ decimal (nat_abs denominator))) }
{
    let mut buffer = Buffer::new();
    out.push(b"/")?;
    out.push(buffer.format(denominator as u64).as_bytes())
}

/// Appends a space and a word.
fn put_word(out: &mut Text, word: &[u8]) -> Result<(), Memory>
    ensures appended { OnOk result (out.new ≡ out.old ++ 32 ∷ word.now) }
{
    out.push(b" ")?;
    out.push(word)
}

/// Appends a space and a number.
fn put_number_word<N: Exact>(out: &mut Text, number: N) -> Result<(), Memory>
    ensures appended { OnOk result (out.new ≡ out.old ++ 32 ∷ number_text (N.value number)) }
{
    out.push(b" ")?;
    put_number(out, number)
}

/// Appends a line of two words.
pub fn put_words(out: &mut Text, first: &[u8], second: &[u8]) -> Result<(), Memory>
    ensures appended { OnOk result (out.new ≡ out.old ++ spaced (first.now ∷ (second.now ∷ []))) }
{
    out.push(first)?;
    put_word(out, second)?;
    out.push(b"\n")
}

/// Appends a line of a word and a number.
pub fn put_single<N: Exact>(out: &mut Text, word: &[u8], number: N) -> Result<(), Memory>
    ensures appended { OnOk result (out.new
        ≡ out.old ++ spaced (word.now ∷ (number_text (N.value number) ∷ []))) }
{
    out.push(word)?;
    put_number_word(out, number)?;
    out.push(b"\n")
}

/// Appends a line of two words and a number.
pub fn put_named<N: Exact>(
    out: &mut Text,
    word: &[u8],
    name: &[u8],
    number: N,
) -> Result<(), Memory>
    ensures appended { OnOk result (out.new
        ≡ out.old ++ spaced (word.now ∷ (name.now ∷ (number_text (N.value number) ∷ [])))) }
{
    out.push(word)?;
    put_word(out, name)?;
    put_number_word(out, number)?;
    out.push(b"\n")
}

/// Appends a line of three words and a number.
pub fn put_pair<N: Exact>(
    out: &mut Text,
    word: &[u8],
    first: &[u8],
    second: &[u8],
    number: N,
) -> Result<(), Memory>
    ensures appended { OnOk result (out.new
        ≡ out.old ++ spaced
        (word.now ∷ (first.now ∷ (second.now ∷ (number_text (N.value number) ∷ []))))) }
{
    out.push(word)?;
    put_word(out, first)?;
    put_word(out, second)?;
    put_number_word(out, number)?;
    out.push(b"\n")
}

/// Appends a line of two words and two numbers.
pub fn put_numbers<N: Exact>(
    out: &mut Text,
    word: &[u8],
    name: &[u8],
    first: N,
    second: N,
) -> Result<(), Memory>
    ensures appended { OnOk result (out.new ≡ out.old ++ spaced (word.now ∷ (name.now
        ∷ (number_text (N.value first) ∷ (number_text (N.value second) ∷ []))))) }
{
    out.push(word)?;
    put_word(out, name)?;
    put_number_word(out, first)?;
    put_number_word(out, second)?;
    out.push(b"\n")
}
