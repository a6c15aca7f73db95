//! The records of a text.

ghost use Rattle.std.specs.Prelude.{◌≡◌, map, take, IfOk, List, ℕ, ◌++◌, ◌∷◌, []};
ghost use Rattle.csv.specs.Records.{fields_of};
ghost use Rattle.rob_replay.specs.Files.{IsFile};

use csv::{ByteRecord, ReaderBuilder};
use rob_number::Memory;
use std::alloc::Global;

/// One more than the records that a file may have, its header among them.
const ROOM: usize = 10_002;

/// Keeps a record while there is room.
fn keep(rows: &mut Vec<ByteRecord>, row: ByteRecord) -> Result<(), Memory>
    ensures kept { IfOk result (λ _. (more : List (List (List ℕ)))
        → map fields_of rows.old.items ≡ take 10002 more
        → map fields_of rows.new.items ≡ take 10002 (more ++ fields_of row ∷ [])) }
{
    if rows.len() < ROOM {
        rows.push(row)?;
    }
    Ok(())
}

/// The first records of a file, the header among them: all, unless there are too many.
pub fn read_rows(alloc: Global, text: &[u8]) -> Result<Vec<ByteRecord>, Memory>
    ensures rows { IfOk result (λ v. (rows : List (List (List ℕ))) × IsFile text.now rows
        × (map fields_of v.items ≡ take 10002 rows)) }
{
    let rdr = ReaderBuilder::new()
        .has_headers(false)
        .flexible(true)
        .from_reader(alloc, text);
    let mut rows = Vec::new(alloc);
    for row in rdr.into_byte_records() {
        match row {
            Err(_) => return Err(Memory),
            Ok(row) => keep(&mut rows, row)?,
        }
    }
    Ok(rows)
}
