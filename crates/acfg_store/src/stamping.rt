//! The files of an override slot: the header of the release's file, and a byte for each flag at its global index.

ghost use Rattle.std.specs.Prelude.{◌≡◌, ◌<◌, ◌≤◌, All, IfOk, length, map, slice_set};
ghost use Rattle.acfg_images.specs.Set.{SetParts, listing};
ghost use Rattle.acfg_model.specs.FlagStates.{server_in};
ghost use Rattle.acfg_store.specs.Stamped.{AreFlagsIn, ArePut, IsStamped};
ghost use Rattle.acfg_store.specs.Stamped as stamped;
ghost use Rattle.acfg_store.specs.Stands.{AreBytesOf, server_info, server_value};
ghost use Rattle.acfg_views.specs.Layout.{flag_info_type, flag_val_type};

use crate::fields::bit_byte;
use acfg_base::Kind;
use acfg_images::ImageSet;
use acfg_model::FlagState;
use std::alloc::{AllocError, Global};

/// `flag.val` of an override slot: the release's values, with the server's overrides. So many flags are listed.
pub(crate) fn write_values(
    alloc: Global,
    set: &ImageSet,
    count: usize,
    rows: &[FlagState],
    indexes: &[u32],
) -> Result<Vec<u8>, AllocError>
    requires { (parts : SetParts) × AreFlagsIn set.now parts rows.now indexes.now × (count ≡ length (listing parts)) }
    ensures { IfOk result (λ made. (parts : SetParts) → AreFlagsIn set.now parts rows.now indexes.now
        → count ≡ length (listing parts) → AreBytesOf flag_val_type made.items parts.package_map.container
        (server_value (server_in rows.now)) (listing parts)) }
{
    let bytes = value_bytes(alloc, rows)?;
    stamp(alloc, set.flag_val(), count, indexes, bytes.as_slice())
}

/// `flag.info` of an override slot: the read-write bits, with a note of each server override.
pub(crate) fn write_infos(
    alloc: Global,
    set: &ImageSet,
    count: usize,
    rows: &[FlagState],
    indexes: &[u32],
) -> Result<Vec<u8>, AllocError>
    requires { (parts : SetParts) × AreFlagsIn set.now parts rows.now indexes.now × (count ≡ length (listing parts)) }
    ensures { IfOk result (λ made. (parts : SetParts) → AreFlagsIn set.now parts rows.now indexes.now
        → count ≡ length (listing parts) → AreBytesOf flag_info_type made.items parts.package_map.container
        (server_info (server_in rows.now)) (listing parts)) }
{
    let bytes = info_bytes(alloc, rows)?;
    stamp(alloc, set.flag_info(), count, indexes, bytes.as_slice())
}

// The values of flags, with the server's overrides.
fn value_bytes(alloc: Global, rows: &[FlagState]) -> Result<Vec<u8>, AllocError>
    ensures { IfOk result (λ bytes. bytes.items ≡ map stamped.value_byte rows.now) }
{
    rows.iter().map(|row| value_byte(row)).collect(alloc)
}

fn value_byte(row: &FlagState) -> u8
    ensures { result ≡ stamped.value_byte row.now }
{
    bit_byte(row.server.unwrap_or(row.entry.value))
}

// The info bytes of flags, with a note of each server override.
fn info_bytes(alloc: Global, rows: &[FlagState]) -> Result<Vec<u8>, AllocError>
    ensures { IfOk result (λ bytes. bytes.items ≡ map stamped.info_byte rows.now) }
{
    rows.iter().map(|row| info_byte(row)).collect(alloc)
}

fn info_byte(row: &FlagState) -> u8
    ensures { result ≡ stamped.info_byte row.now }
{
    let writable = bit_byte(row.entry.kind == Kind::ReadWrite);
    2 * writable + bit_byte(row.server.is_some())
}

// A file of one byte a flag, with other bytes: these, each at its index.
fn stamp(
    alloc: Global,
    file: &[u8],
    count: usize,
    indexes: &[u32],
    bytes: &[u8],
) -> Result<Vec<u8>, AllocError>
    requires count { count ≤ length file.now }
    requires within { All (λ index. index < count) indexes.now }
    requires each { length bytes.now ≡ length indexes.now }
    ensures { IfOk result (λ made. IsStamped file.now count indexes.now bytes.now made.items) }
{
    let table = table_of(alloc, count, indexes, bytes)?;
    let mut made = Vec::with_capacity(alloc, file.len())?;
    made.extend_from_slice(&file[..file.len() - count])?;
    made.extend_from_slice(table.as_slice())?;
    Ok(made)
}

/// A table of so many bytes: these, each at its index.
pub(crate) fn table_of(
    alloc: Global,
    count: usize,
    indexes: &[u32],
    bytes: &[u8],
) -> Result<Vec<u8>, AllocError>
    requires within { All (λ index. index < count) indexes.now }
    requires each { length bytes.now ≡ length indexes.now }
    ensures size { IfOk result (λ table. length table.items ≡ count) }
    ensures put { IfOk result (λ table. ArePut indexes.now bytes.now (length indexes.now) table.items) }
{
    let mut table = vec![in alloc; 0; count]?;
    spread(table.as_mut_slice(), indexes, bytes);
    Ok(table)
}

fn spread(table: &mut [u8], indexes: &[u32], bytes: &[u8])
    requires within { All (λ index. index < length table.old) indexes.now }
    requires each { length bytes.now ≡ length indexes.now }
    ensures size { length table.new ≡ length table.old }
    ensures put { ArePut indexes.now bytes.now (length indexes.now) table.new }
{
    for i in 0..indexes.len() {
        put(table, indexes[i], bytes[i]);
    }
}

fn put(table: &mut [u8], index: u32, byte: u8)
    requires { index < length table.old }
    ensures { table.new ≡ slice_set table.old index byte }
{
    table[index as usize] = byte;
}
