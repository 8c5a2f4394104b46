//! The files of a boot copy: the release's maps, and for each flag its pick and its bits at its global index.

ghost use Rattle.std.specs.Prelude.{◌≡◌, IfOk, Ok, length, map};
ghost use Rattle.acfg_images.specs.declared.purpose.Use.TheVariants as purpose;
ghost use Rattle.acfg_images.specs.Faults.{checked};
ghost use Rattle.acfg_images.specs.Set.{IsSetOf, SetParts, listing};
ghost use Rattle.acfg_model.specs.State as model;
ghost use Rattle.acfg_store.specs.Picked.{AreOnWritable, HasRows, IsCopyFor};
ghost use Rattle.acfg_store.specs.Picked as picked;
ghost use Rattle.acfg_store.specs.Stamped.{AreFlagsIn};

use crate::fields::bit_byte;
use crate::stamping::table_of;
use acfg_base::{Kind, OutOfMemory};
use acfg_images::{Checked, ImageFault, ImageSet, Use, check, restamp};
use acfg_model::FlagState;
use std::alloc::{AllocError, Global};

/// The files of the boot copy that a boot makes of a container, whose release's files and flags these are. So many
/// flags are listed.
pub(crate) fn copy_set(
    alloc: Global,
    set: &ImageSet,
    count: usize,
    rows: &[FlagState],
    indexes: &[u32],
) -> Result<ImageSet, OutOfMemory>
    requires flags { (parts : SetParts) × AreFlagsIn set.now parts rows.now indexes.now
        × (count ≡ length (listing parts)) }
    requires writable { AreOnWritable rows.now }
    ensures { IfOk result (λ made. (parts : SetParts) (container : model.Container)
        → AreFlagsIn set.now parts rows.now indexes.now → HasRows container rows.now
        → IsCopyFor made parts.package_map.container container) }
{
    let checked = check_again(alloc, set, Use::Release)?;
    let picks = pick_bytes(alloc, rows)?;
    let notes = noted_bytes(alloc, rows)?;
    let values = table_of(alloc, count, indexes, picks.as_slice())?;
    let infos = table_of(alloc, count, indexes, notes.as_slice())?;
    restamp(alloc, &checked, values.as_slice(), infos.as_slice())
}

/// The check of a set that is one.
pub(crate) fn check_again(
    alloc: Global,
    set: &ImageSet,
    purpose: Use,
) -> Result<Checked<'_>, OutOfMemory>
    requires { (parts : SetParts) × IsSetOf set.now purpose parts }
    ensures { IfOk result (λ opened. checked purpose set.now ≡ Ok opened) }
{
    match check(alloc, set, purpose) {
        Ok(checked) => Ok(checked),
        Err(fault) => match fault {
            ImageFault::OutOfMemory => Err(OutOfMemory),
            _ => unreachable!(),
        },
    }
}

fn pick_bytes(alloc: Global, rows: &[FlagState]) -> Result<Vec<u8>, AllocError>
    ensures { IfOk result (λ bytes. bytes.items ≡ map picked.pick_byte rows.now) }
{
    rows.iter().map(|row| pick_byte(row)).collect(alloc)
}

/// The byte of a flag's pick.
pub(crate) fn pick_byte(row: &FlagState) -> u8
    ensures { result ≡ picked.pick_byte row.now }
{
    bit_byte(row.local.unwrap_or(row.server.unwrap_or(row.entry.value)))
}

fn noted_bytes(alloc: Global, rows: &[FlagState]) -> Result<Vec<u8>, AllocError>
    ensures { IfOk result (λ bytes. bytes.items ≡ map picked.noted_byte rows.now) }
{
    rows.iter().map(|row| noted_byte(row)).collect(alloc)
}

fn noted_byte(row: &FlagState) -> u8
    ensures { result ≡ picked.noted_byte row.now }
{
    let writable = bit_byte(row.entry.kind == Kind::ReadWrite);
    2 * writable + (bit_byte(row.server.is_some()) + 4 * bit_byte(row.local.is_some()))
}
