//! Names as they are spelled, compared and written without making a text of their own.

ghost use Rattle.std.specs.Prelude.{◌≡◌, ◌++◌, ℕ, List, IsTrue, ◌↔◌, MatchOption, OnOk, OnErr};
ghost use Rattle.std.specs.Option.{option_copied};
ghost use Rattle.rob_model.specs.Spelling.{tail_of, number_tail, name_of};

use itoa::Buffer;
use rob_number::{Memory, Text};

/// A name made of a first part, a number, and two further parts; those behind the first may be missing, and stand
/// behind a dot. So `budget.1.d.up` has all four, and the name of a variable only the first.
#[derive(Clone, Copy)]
pub struct Spelling<'a> {
    pub first: &'a [u8],
    pub number: Option<u32>,
    pub second: Option<&'a [u8]>,
    pub last: Option<&'static [u8]>,
}

impl Spelling<'_> {
    /// Whether a text is the name.
    pub fn is(&self, text: &[u8]) -> bool
        ensures same { IsTrue result ↔ (text.now ≡ name_of self.now) }
    {
        match self.behind(text) {
            Some(rest) => rest.is_empty(),
            None => false,
        }
    }

    /// What stands behind the name at the front of a text.
    fn behind<'t>(&self, text: &'t [u8]) -> Option<&'t [u8]>
        ensures found { MatchOption result
            ((rest : List ℕ) → text.now ≡ name_of self.now ++ rest → ⊥)
            (λ rest. text.now ≡ name_of self.now ++ rest.now) }
    {
        let rest = strip(text, self.first)?;
        let rest = strip_number(rest, self.number)?;
        let rest = strip_part(rest, self.second)?;
        strip_part(rest, self.last)
    }

    /// Appends the name. After a refusal the text is unchanged.
    pub fn put(&self, out: &mut Text) -> Result<(), Memory>
        ensures appended { OnOk result (out.new ≡ out.old ++ name_of self.now) }
        ensures unchanged { OnErr result (out.new ≡ out.old) }
    {
        let before = out.bytes().len();
        match self.append(out) {
            Ok(()) => Ok(()),
            Err(memory) => {
                out.cut(before);
                Err(memory)
            }
        }
    }

    /// The same, with some of the name's bytes appended after a refusal.
    fn append(&self, out: &mut Text) -> Result<(), Memory>
        ensures appended { OnOk result (out.new ≡ out.old ++ name_of self.now) }
        ensures grew { (more : List ℕ) × (out.new ≡ out.old ++ more) }
    {
        out.push(self.first)?;
        append_number(out, self.number)?;
        append_part(out, self.second)?;
        append_part(out, self.last)
    }
}

/// What stands behind a piece at the front of a text.
fn strip<'t>(text: &'t [u8], piece: &[u8]) -> Option<&'t [u8]>
    ensures found { MatchOption result ((rest : List ℕ) → text.now ≡ piece.now ++ rest → ⊥)
        (λ rest. text.now ≡ piece.now ++ rest.now) }
{
    text.strip_prefix(piece)
}

/// The same for a dot and a part, where there is one.
fn strip_part<'t>(text: &'t [u8], part: Option<&[u8]>) -> Option<&'t [u8]>
    ensures found { MatchOption result
        ((rest : List ℕ) → text.now ≡ tail_of (option_copied part.entry) ++ rest → ⊥)
        (λ rest. text.now ≡ tail_of (option_copied part.entry) ++ rest.now) }
{
    match part {
        Some(part) => {
            let rest = strip(text, b".")?;
            strip(rest, part)
        }
        None => Some(text),
    }
}

/// The same for a dot and a number in decimal digits, where there is one.
fn strip_number<'t>(text: &'t [u8], number: Option<u32>) -> Option<&'t [u8]>
    ensures found { MatchOption result ((rest : List ℕ) → text.now ≡ number_tail number ++ rest → ⊥)
        (λ rest. text.now ≡ number_tail number ++ rest.now) }
{
    match number {
        Some(number) => {
            let rest = strip(text, b".")?;
            let mut buffer = Buffer::new();
            strip(rest, buffer.format(number).as_bytes())
        }
        None => Some(text),
    }
}

/// Appends a dot and a part, where there is one.
fn append_part(out: &mut Text, part: Option<&[u8]>) -> Result<(), Memory>
    ensures appended { OnOk result (out.new ≡ out.old ++ tail_of (option_copied part.entry)) }
    ensures grew { (more : List ℕ) × (out.new ≡ out.old ++ more) }
{
    if let Some(part) = part {
        out.push(b".")?;
        out.push(part)?;
    }
    Ok(())
}

/// Appends a dot and a number in decimal digits, where there is one.
fn append_number(out: &mut Text, number: Option<u32>) -> Result<(), Memory>
    ensures appended { OnOk result (out.new ≡ out.old ++ number_tail number) }
    ensures grew { (more : List ℕ) × (out.new ≡ out.old ++ more) }
{
    if let Some(number) = number {
        let mut buffer = Buffer::new();
        out.push(b".")?;
        out.push(buffer.format(number).as_bytes())?;
    }
    Ok(())
}
