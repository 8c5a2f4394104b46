//! An override slot: whether its files are sound, and the flags with the overrides that they hold.

ghost use Rattle.std.specs.Prelude.{◌≡◌, ◌<◌, All, IfOk, IsSome, IsTrue, MatchBool, map as mapped};
ghost use Rattle.acfg_views.specs.Layout.{flag_info_type, flag_val_type};
ghost use Rattle.acfg_views.specs.Reading.{byte_in};
ghost use Rattle.acfg_base.specs.Found.{Finds};
ghost use Rattle.acfg_base.specs.Places.{AreInOrder, IsPlace};
ghost use Rattle.acfg_base.specs.Release.{is_read_write};
ghost use Rattle.std.specs.Ordering.{nat_cmp};
ghost use Rattle.acfg_store.specs.Keys.{local_index};
ghost use Rattle.acfg_store.specs.Placed.{AreLocalsOver, IsAll, IsInfoAt, IsInfoOf, IsListOver, IsValueAt};
ghost use Rattle.acfg_store.specs.Placed.{entry_at_row, server_at, state_row};
ghost use Rattle.acfg_store.specs.Stands.{local_at};

use crate::fields::bit_byte;
use crate::locals::{LocalOverride, Locals, read_locals};
use crate::placed::Placed;
use acfg_base::{Entry, Kind, OutOfMemory};
use acfg_model::FlagState;
use acfg_views::{Infos, Values};
use std::alloc::{AllocError, Global};

/// The values of an override slot; none exactly where the bytes aren't one lawful value for each of so many flags.
pub(crate) fn values_of<'a>(
    bytes: &'a [u8],
    container: &str,
    count: u32,
    flags: &[Placed],
) -> Option<Values<'a>>
    requires { All (λ row. row.found.index < count) flags.now }
    ensures sound { Finds (IsListOver flag_val_type bytes.now container.now count IsValueAt flags.now) result }
{
    match Values::open(bytes) {
        Err(_) => None,
        Ok(values) => {
            if values.container() == container
                && values.count() == count
                && are_values(&values, count, flags)
            {
                Some(values)
            } else {
                None
            }
        }
    }
}

fn are_values(values: &Values<'_>, count: u32, flags: &[Placed]) -> bool
    requires count { values.now.count ≡ count }
    requires within { All (λ row. row.found.index < count) flags.now }
    ensures { IsAll (λ row. IsValueAt row (byte_in values.now row.found.index)) flags.now result }
{
    for flag in flags {
        if values.at(flag.found.index) > 1 {
            return false;
        }
    }
    true
}

/// The info bytes of an override slot, over its values; none exactly where the bytes aren't one lawful byte for each of
/// so many flags.
pub(crate) fn infos_of<'a>(
    bytes: &'a [u8],
    container: &str,
    count: u32,
    flags: &[Placed],
    values: &Values<'_>,
) -> Option<Infos<'a>>
    requires count { values.now.count ≡ count }
    requires within { All (λ row. row.found.index < count) flags.now }
    ensures sound { Finds (IsListOver flag_info_type bytes.now container.now count (IsInfoAt values.now) flags.now)
        result }
{
    match Infos::open(bytes) {
        Err(_) => None,
        Ok(infos) => {
            if infos.container() == container
                && infos.count() == count
                && are_infos(&infos, count, flags, values)
            {
                Some(infos)
            } else {
                None
            }
        }
    }
}

fn are_infos(infos: &Infos<'_>, count: u32, flags: &[Placed], values: &Values<'_>) -> bool
    requires count { infos.now.count ≡ count }
    requires values { values.now.count ≡ count }
    requires within { All (λ row. row.found.index < count) flags.now }
    ensures { IsAll (λ row. IsInfoAt values.now row (byte_in infos.now row.found.index)) flags.now result }
{
    for flag in flags {
        let found = flag.found;
        if !is_info(
            found.kind,
            found.value,
            infos.at(found.index),
            values.at(found.index),
        ) {
            return false;
        }
    }
    true
}

// Whether an info byte is that of a flag of a kind, over a value where the release has this one.
fn is_info(kind: Kind, released: bool, byte: u8, value: u8) -> bool
    ensures { MatchBool result (IsInfoOf kind released byte value) (IsInfoOf kind released byte value → ⊥) }
{
    let writable = kind == Kind::ReadWrite;
    if writable && byte == 3 {
        return true;
    }
    byte == 2 * bit_byte(writable) && value == bit_byte(released)
}

/// The local overrides of an override slot; none exactly where the bytes aren't a lawful list of them, each of a
/// read-write flag of so many.
pub(crate) fn locals_of(
    alloc: Global,
    bytes: &[u8],
    count: u32,
    flags: &[Placed],
) -> Result<Option<Locals>, OutOfMemory>
    ensures { IfOk result (Finds (AreLocalsOver bytes.now count flags.now)) }
{
    match read_locals(alloc, bytes)? {
        None => Ok(None),
        Some(rows) => {
            if are_within(rows.as_slice(), count) && are_writable(rows.as_slice(), flags) {
                Ok(Some(rows))
            } else {
                Ok(None)
            }
        }
    }
}

fn are_within(rows: &[LocalOverride], count: u32) -> bool
    ensures { IsAll (λ row. row.index < count) rows.now result }
{
    rows.iter().all(|row| row.index < count)
}

fn are_writable(rows: &[LocalOverride], flags: &[Placed]) -> bool
    requires { AreInOrder nat_cmp local_index rows.now }
    ensures { IsAll (λ row. IsSome (local_at rows.now row.found.index)
        → IsTrue (is_read_write row.found.kind)) flags.now
        result }
{
    for flag in flags {
        if flag.found.kind != Kind::ReadWrite && local_value(rows, flag.found.index).is_some() {
            return false;
        }
    }
    true
}

// The local override at a flag's index.
fn local_value(rows: &[LocalOverride], index: u32) -> Option<bool>
    requires { AreInOrder nat_cmp local_index rows.now }
    ensures { result ≡ local_at rows.now index }
{
    match place_of(rows, index) {
        Ok(at) => Some(rows[at].value),
        Err(_) => None,
    }
}

fn place_of(rows: &[LocalOverride], index: u32) -> Result<usize, usize>
    requires { AreInOrder nat_cmp local_index rows.now }
    ensures { IsPlace nat_cmp local_index rows.now index result }
{
    rows.binary_search_by(|row| row.index.cmp(&index))
}

/// The flags with the overrides that the bytes at their indexes tell.
pub(crate) fn flag_states(
    alloc: Global,
    flags: Vec<Placed>,
    values: &Values<'_>,
    infos: &Infos<'_>,
    locals: &[LocalOverride],
) -> Result<Vec<FlagState>, AllocError>
    requires values { All (λ row. row.found.index < values.now.count) flags.items }
    requires infos { All (λ row. row.found.index < infos.now.count) flags.items }
    requires locals { AreInOrder nat_cmp local_index locals.now }
    ensures { IfOk result (λ rows. rows.items ≡ mapped (state_row values.now infos.now locals.now) flags.items) }
{
    let mut rows = Vec::with_capacity(alloc, flags.len())?;
    for flag in flags {
        let index = flag.found.index;
        let server = server_value(values, infos, index);
        let local = local_value(locals, index);
        rows.push(FlagState {
            entry: entry_of(flag),
            server,
            local,
        })?;
    }
    Ok(rows)
}

// The server's override at an index.
fn server_value(values: &Values<'_>, infos: &Infos<'_>, index: u32) -> Option<bool>
    requires values { index < values.now.count }
    requires infos { index < infos.now.count }
    ensures { result ≡ server_at values.now infos.now index }
{
    if infos.at(index) == 3 {
        Some(values.at(index) == 1)
    } else {
        None
    }
}

/// The flag as a release has it.
pub(crate) fn entry_of(flag: Placed) -> Entry
    ensures { result ≡ entry_at_row flag }
{
    Entry {
        package: flag.package,
        flag: flag.flag,
        kind: flag.found.kind,
        value: flag.found.value,
    }
}
