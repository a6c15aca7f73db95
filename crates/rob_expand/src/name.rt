//! Names in a setting, and the numbers of their words: first those of the text, and behind them those that lines bring.

ghost use Rattle.std.specs.Prelude.{◌≡◌, ◌++◌, ◌∷◌, ℤ, [], List as Items, fold, get_or, true, IfOk, OnOk};
ghost use Rattle.std.specs.List.{flat_map, list_any};
ghost use Rattle.rob_index.specs.Rules.{is_long_name};
ghost use Rattle.rob_syntax.specs.Known.{texts};
ghost use Rattle.rob_syntax.specs.Symbols as symbols;
ghost use Rattle.rob_expand.specs.declared.name.Refusal.TheVariants.{Memory};
ghost use Rattle.rob_expand.specs.Growing as spec;
ghost use Rattle.rob_expand.specs.Growing.{index_bytes, named_at};

use itoa::Buffer;
use rob_number::Memory;
use rob_ranges::{Form, Values, Whole};
use rob_settings::item::Named;
use rob_syntax::Words;
use std::alloc::Global;

/// The bytes that a name may have.
const LONGEST_NAME: usize = 32;

/// The greatest value of an index.
pub const GREATEST_INDEX: i64 = 999;

/// Why a statement isn't expanded.
#[derive(Drop)]
pub enum Refusal {
    /// A plain statement is none: a name of it is too long, or it is a budget without members.
    NoStatement,
    /// Memory was refused.
    Memory,
}

impl From<Memory> for Refusal {
    ghost from_gives = { λ _ e. e ≡ Memory };

    fn from(_e: Memory) -> Refusal {
        Refusal::Memory
    }
}

/// Adds a name behind the words, unless it is among them or too long; and says whether it is too long. Names have the
/// numbers of the text's own words.
pub fn add_name(
    alloc: Global,
    own: &Words,
    words: &mut Words,
    name: &Named,
    values: &[Whole],
) -> Result<bool, Memory>
    ensures words { OnOk result (texts words.new.keys
        ≡ fold spec.add_name (texts words.old.keys) (named_at (texts own.now.keys) name.now values.now ∷ [])) }
    ensures long { IfOk result (λ long. long
        ≡ list_any is_long_name (named_at (texts own.now.keys) name.now values.now ∷ [])) }
{
    let values = Values::of(alloc, values);
    add_name_inside(alloc, own, words, name, &values)
}

/// The same inside sums.
pub fn add_name_inside(
    alloc: Global,
    own: &Words,
    words: &mut Words,
    name: &Named,
    values: &Values,
) -> Result<bool, Memory>
    ensures words { OnOk result (texts words.new.keys
        ≡ fold spec.add_name (texts words.old.keys) (named_at (texts own.now.keys) name.now values.now ∷ [])) }
    ensures long { IfOk result (λ long. long
        ≡ list_any is_long_name (named_at (texts own.now.keys) name.now values.now ∷ [])) }
{
    if is_surely_long(own, name) {
        return Ok(true);
    }
    let bytes = name_bytes(alloc, own, name, values)?;
    if bytes.len() > LONGEST_NAME {
        return Ok(true);
    }
    insert(words, bytes)?;
    Ok(false)
}

/// Whether the name is too long whatever its indices are.
fn is_surely_long(own: &Words, name: &Named) -> bool
    ensures long { result ≡ true
        → (values : Items ℤ) → is_long_name (named_at (texts own.now.keys) name.now values) ≡ true }
{
    word_at(own, name.word).len() > LONGEST_NAME
}

/// Adds a word behind the others, unless it is among them.
fn insert(words: &mut Words, word: Vec<u8>) -> Result<(), Memory>
    ensures words { OnOk result (texts words.new.keys
        ≡ symbols.add_word (texts words.old.keys) word.items) }
{
    words.insert(word)?;
    Ok(())
}

/// The number of a name's word, or 0.
pub fn name_number(
    alloc: Global,
    own: &Words,
    words: &Words,
    name: &Named,
    values: &[Whole],
) -> Result<usize, Memory>
    ensures number { IfOk result (λ number. number
        ≡ symbols.number_of (texts words.now.keys) (named_at (texts own.now.keys) name.now values.now)) }
{
    let values = Values::of(alloc, values);
    name_number_inside(alloc, own, words, name, &values)
}

/// The same inside sums.
pub fn name_number_inside(
    alloc: Global,
    own: &Words,
    words: &Words,
    name: &Named,
    values: &Values,
) -> Result<usize, Memory>
    ensures number { IfOk result (λ number. number
        ≡ symbols.number_of (texts words.now.keys) (named_at (texts own.now.keys) name.now values.now)) }
{
    let bytes = name_bytes(alloc, own, name, values)?;
    Ok(number_of(words, bytes.as_slice()))
}

/// The number of a word, or 0.
fn number_of(words: &Words, word: &[u8]) -> usize
    ensures number { result ≡ symbols.number_of (texts words.now.keys) word.now }
{
    words.get_index_of(word).unwrap_or(0)
}

/// The bytes of a name: its word, then each index behind `_`.
fn name_bytes(alloc: Global, own: &Words, name: &Named, values: &Values) -> Result<Vec<u8>, Memory>
    ensures bytes { IfOk result (λ bytes. bytes.items
        ≡ named_at (texts own.now.keys) name.now values.now) }
{
    let mut bytes = word_bytes(alloc, own, name)?;
    append_indices(&mut bytes, alloc, name.indices.items(), values)?;
    Ok(bytes)
}

/// The bytes of a name's word, with room for `_` and three digits for each index.
fn word_bytes(alloc: Global, own: &Words, name: &Named) -> Result<Vec<u8>, Memory>
    ensures bytes { IfOk result (λ bytes. bytes.items
        ≡ get_or (texts own.now.keys) name.now.word []) }
{
    let word = word_at(own, name.word);
    let room = name.indices.items().len().saturating_mul(4);
    let mut bytes = Vec::with_capacity(alloc, room.saturating_add(word.len()))?;
    bytes.extend_from_slice(word)?;
    Ok(bytes)
}

/// The bytes of a word; none where there is no word with the number.
fn word_at(own: &Words, word: usize) -> &[u8]
    ensures word { result.now ≡ get_or (texts own.now.keys) word [] }
{
    match own.get_index(word) {
        Some(bytes) => bytes.as_slice(),
        None => &[],
    }
}

/// Appends each index behind `_`.
fn append_indices(
    bytes: &mut Vec<u8>,
    alloc: Global,
    forms: &[Form],
    values: &Values,
) -> Result<(), Memory>
    ensures appended { OnOk result (bytes.new.items
        ≡ bytes.old.items ++ flat_map (index_bytes values.now) forms.now) }
{
    for form in forms {
        append_index(bytes, alloc, form, values)?;
    }
    Ok(())
}

/// Appends `_` and an index.
fn append_index(
    bytes: &mut Vec<u8>,
    alloc: Global,
    form: &Form,
    values: &Values,
) -> Result<(), Memory>
    ensures appended { OnOk result (bytes.new.items
        ≡ bytes.old.items ++ index_bytes values.now form.now) }
{
    let value = values.value_of(alloc, form)?;
    let number = printed(alloc, &value)?;
    bytes.push(b'_')?;
    let mut buffer = Buffer::new();
    bytes.extend_from_slice(buffer.format(number).as_bytes())?;
    Ok(())
}

/// What is printed for an index: its value, where it is within bounds, else 0.
fn printed(alloc: Global, value: &Whole) -> Result<u64, Memory>
    ensures printed { IfOk result (λ number. number ≡ spec.printed value.now) }
{
    if value.is_negative() {
        return Ok(0);
    }
    let most = Whole::small(alloc, GREATEST_INDEX);
    if most.is_less(alloc, value)? {
        return Ok(0);
    }
    Ok(value.low().unsigned_abs())
}
