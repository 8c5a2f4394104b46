//! The boot copy of a container: its files, and the flags that they list.

ghost use Rattle.std.specs.Prelude.{◌≡◌, IfOk, map};
ghost use Rattle.acfg_base.specs.Places.{AreInOrder};
ghost use Rattle.acfg_base.specs.Release.{key_cmp};
ghost use Rattle.acfg_images.specs.Set as noted;
ghost use Rattle.acfg_store.specs.Copies.{IsBlamedCopy, IsCopyAt, IsCopyOf};
ghost use Rattle.acfg_store.specs.Judged.{IsAllOf, Judges};
ghost use Rattle.acfg_store.specs.Placed.{boot_row, placed_key};

use crate::faults::Fault;
use crate::names::Slot;
use crate::overrides::entry_of;
use crate::placed::{Placed, flags_in};
use crate::sets::{SlotFiles, check_copy, whole};
use acfg_base::InOrder;
use acfg_images::{FileType, ImageSet};
use acfg_model::{BootCopy, Booted};
use std::alloc::{AllocError, Global};

/// What was read of a boot copy: there is no pointer, it names no slot, or these are the files of the slot.
#[derive(Debug, Drop)]
pub(crate) enum BootFiles {
    Absent,
    Bad,
    Named(Slot, SlotFiles),
}

/// A boot copy: its files, and the flags that they list.
#[derive(Debug, Drop)]
pub(crate) struct Copied {
    pub(crate) set: ImageSet,
    pub(crate) copy: BootCopy,
}

/// The boot copy that the files of a boot slot are, or the first file at fault.
pub(crate) fn judge_copy(
    alloc: Global,
    container: &str,
    read: SlotFiles,
) -> Result<Copied, Fault<FileType>>
    ensures { Judges (λ found. IsAllOf read found.set × IsCopyOf container.now found.set found.copy)
        (IsCopyAt container.now read) result }
{
    match whole(read) {
        Ok(set) => match list_copy(alloc, container, &set) {
            Ok(copy) => Ok(Copied { set, copy }),
            Err(fault) => Err(fault),
        },
        Err(file) => Err(Fault::At(file)),
    }
}

fn list_copy(alloc: Global, container: &str, set: &ImageSet) -> Result<BootCopy, Fault<FileType>>
    ensures { Judges (IsCopyOf container.now set.now) (IsBlamedCopy container.now set.now) result }
{
    let checked = match check_copy(alloc, set, container) {
        Ok(checked) => checked,
        Err(fault) => return Err(fault),
    };
    let flags = flags_in(alloc, &checked)?;
    let copy = boot_copy(alloc, flags)?;
    Ok(copy)
}

// The flags of a boot copy, as the model has them.
fn boot_copy(alloc: Global, flags: Vec<Placed>) -> Result<BootCopy, AllocError>
    requires { AreInOrder key_cmp placed_key flags.items }
    ensures { IfOk result (λ copy. copy ≡ map boot_row flags.items) }
{
    let rows = boot_rows(alloc, flags)?;
    Ok(InOrder::from_sorted(rows))
}

fn boot_rows(alloc: Global, flags: Vec<Placed>) -> Result<Vec<Booted>, AllocError>
    ensures { IfOk result (λ rows. rows.items ≡ map boot_row flags.items) }
{
    let mut rows = Vec::with_capacity(alloc, flags.len())?;
    for flag in flags {
        let server = has_server(flag.found.bits);
        let local = has_local(flag.found.bits);
        rows.push(Booted {
            entry: entry_of(flag),
            server,
            local,
        })?;
    }
    Ok(rows)
}

fn has_server(bits: u8) -> bool
    ensures { result ≡ noted.has_server bits }
{
    bits % 2 == 1
}

fn has_local(bits: u8) -> bool
    ensures { result ≡ noted.has_local bits }
{
    bits / 4 % 2 == 1
}
