//! `local` of an override slot: the local overrides in order of the flags' global indexes. Flags stand in order of
//! their names, so a table of marks, one byte for each flag at its index, puts the overrides in order.

ghost use Rattle.std.specs.Prelude.{◌≡◌, ◌≤◌, ◌^◌, IfOk, length, map};
ghost use Rattle.acfg_images.specs.Files as four;
ghost use Rattle.acfg_images.specs.Set.{SetParts, listing};
ghost use Rattle.acfg_model.specs.FlagStates.{local_in};
ghost use Rattle.acfg_store.specs.Marked.{local_mark, mark_value, marked_from};
ghost use Rattle.acfg_store.specs.Stamped.{AreFlagsIn};
ghost use Rattle.acfg_store.specs.Stands.{AreLocalsOf};

use crate::fields::bit_byte;
use crate::locals::{LocalOverride, write_locals};
use crate::stamping::table_of;
use acfg_base::OutOfMemory;
use acfg_model::FlagState;
use std::alloc::{AllocError, Global};

/// The bytes of `local` for flags with their indexes. So many flags are listed.
pub(crate) fn write_local(
    alloc: Global,
    count: u32,
    rows: &[FlagState],
    indexes: &[u32],
) -> Result<Vec<u8>, OutOfMemory>
    requires { (set : four.Files) × (parts : SetParts) × AreFlagsIn set parts rows.now indexes.now
        × (count ≡ length (listing parts)) }
    ensures { IfOk result (λ made. (set : four.Files) (parts : SetParts) → AreFlagsIn set parts rows.now indexes.now
        → count ≡ length (listing parts) → AreLocalsOf made.items (local_in rows.now) (listing parts)) }
{
    let marks = marks_of(alloc, rows)?;
    let table = table_of(alloc, count as usize, indexes, marks.as_slice())?;
    let overrides = marked(alloc, table.as_slice())?;
    write_locals(alloc, overrides.as_slice())
}

// The mark of each flag.
fn marks_of(alloc: Global, rows: &[FlagState]) -> Result<Vec<u8>, AllocError>
    ensures { IfOk result (λ marks. marks.items ≡ map local_mark rows.now) }
{
    rows.iter().map(|row| mark_of(row)).collect(alloc)
}

fn mark_of(row: &FlagState) -> u8
    ensures { result ≡ local_mark row.now }
{
    match row.local {
        None => 0,
        Some(value) => 1 + bit_byte(value),
    }
}

// The overrides that a table of marks lists, in order of their indexes.
fn marked(alloc: Global, table: &[u8]) -> Result<Vec<LocalOverride>, AllocError>
    requires { length table.now ≤ 2 ^ 32 }
    ensures { IfOk result (λ rows. rows.items ≡ marked_from 0 table.now) }
{
    let mut rows = Vec::new(alloc);
    for i in 0..table.len() {
        let index = i as u32;
        if let Some(value) = value_of(table[i]) {
            rows.push(LocalOverride { index, value })?;
        }
    }
    Ok(rows)
}

// The override that a mark is, where it is one.
fn value_of(mark: u8) -> Option<bool>
    ensures { result ≡ mark_value mark }
{
    if mark == 0 { None } else { Some(mark == 2) }
}
