//! What is written of sets: the lines that declare them, and what ends a line.

ghost use Rattle.std.specs.Prelude.{◌≡◌, [], get_or, map, fold, OnOk};
ghost use Rattle.rob_write.specs.Pages.{put, put_line};
ghost use Rattle.rob_write.specs.StatementWords.{declared_set_words, over_words};

use crate::page::Page;
use rob_number::{Memory, Text};
use rob_syntax::Keyword;

/// Writes a line for each set.
pub fn put_declared_sets(page: &mut Page, sets: &[Text]) -> Result<(), Memory>
    ensures written { OnOk result (page.new
        ≡ fold put_line page.old (map declared_set_words sets.now)) }
{
    for set in sets {
        put_declared_set(page, set)?;
    }
    Ok(())
}

/// Writes the line that declares a set.
fn put_declared_set(page: &mut Page, set: &Text) -> Result<(), Memory>
    ensures written { OnOk result (page.new ≡ put_line page.old (declared_set_words set.now)) }
{
    page.keyword(Keyword::Over)?;
    page.name(set.bytes())?;
    page.line_end()
}

/// Writes what ends a line that answers to this set, which is nothing for the default set.
pub fn put_over(page: &mut Page, sets: &[Text], set: u32) -> Result<(), Memory>
    ensures written { OnOk result (page.new ≡ fold put page.old (over_words sets.now set)) }
{
    if set == 0 {
        return Ok(());
    }
    page.keyword(Keyword::Over)?;
    page.name(set_name(sets, set - 1))
}

/// The name of a set, named sets being counted from 0.
fn set_name(sets: &[Text], k: u32) -> &[u8]
    ensures name { result.now ≡ get_or sets.now k [] }
{
    if (k as usize) < sets.len() {
        sets[k as usize].bytes()
    } else {
        b""
    }
}

/// The set of the item of this number; what has no number belongs to the default set.
pub fn set_of(of_items: &[u32], i: usize) -> u32
    ensures set { result ≡ get_or of_items.now i 0 }
{
    if i < of_items.len() { of_items[i] } else { 0 }
}
