//! Files in memory, in the order of their adding.

ghost use Rattle.std.specs.Prelude.{◌≡◌, [], ◌∷◌, ◌++◌, IfErr, IfOk, OnOk, OnErr, Some};
ghost use Rattle.rob_outside.specs.Files.{file_of, found_at, found_of, found_within};

use crate::shelf::{Fetched, ShelfErr};
use rob_number::{List, Memory, Text};
use std::alloc::Global;
use std::marker::Model;

/// A file in memory.
#[derive(Debug, Drop)]
pub(crate) struct StoredFile {
    name: Text,
    bytes: Text,
}

impl Model for StoredFile {
    ghost use Rattle.rob_outside.specs.Files.{File};

    ghost Value = { File };

    ghost view = { λ file. record { name = file.name; bytes = file.bytes } };
}

/// Adds a file behind the others.
pub(crate) fn store(
    alloc: Global,
    files: &mut List<StoredFile>,
    name: &str,
    bytes: &[u8],
) -> Result<(), Memory>
    ensures added { OnOk result (files.new ≡ files.old ++ file_of name.now bytes.now ∷ []) }
    ensures unchanged { OnErr result (files.new ≡ files.old) }
{
    let name = Text::from(Vec::from_slice(alloc, name.as_bytes())?);
    let bytes = Text::from(Vec::from_slice(alloc, bytes)?);
    files.push(StoredFile { name, bytes })
}

/// A copy of the first file of that name, if it has at most `max` bytes.
pub(crate) fn find(
    alloc: Global,
    files: &[StoredFile],
    name: &[u8],
    max: usize,
) -> Result<Fetched, ShelfErr>
    ensures found { IfOk result (λ fetched. found_of fetched ≡ found_at name.now max files.now) }
    ensures memory { IfErr result (λ error. error ≡ ShelfErr.Memory) }
{
    for file in files {
        if file.name.bytes() == name {
            return copy_within(alloc, file.bytes.bytes(), max);
        }
    }
    Ok(Fetched::Missing)
}

/// A copy of the bytes, if they are at most `max`.
fn copy_within(alloc: Global, bytes: &[u8], max: usize) -> Result<Fetched, ShelfErr>
    ensures found { IfOk result (λ fetched. found_of fetched ≡ found_within max (Some bytes.now)) }
    ensures memory { IfErr result (λ error. error ≡ ShelfErr.Memory) }
{
    if bytes.len() > max {
        return Ok(Fetched::TooLong);
    }
    Ok(Fetched::Bytes(Vec::from_slice(alloc, bytes)?))
}
