//! The files of a boot copy in which one flag is as its container has it now.

ghost use Rattle.std.specs.Prelude.{◌≡◌, ◌-◌, ◌<◌, ◌≤◌, IfOk, IsSome, List, Some, drop, length, slice_set, ℕ};
ghost use Rattle.std.specs.FinMap.{get};
ghost use Rattle.acfg_images.specs.Faults.{parts_in};
ghost use Rattle.acfg_images.specs.Set.{listed};
ghost use Rattle.acfg_model.specs.FlagStates.{boot_renewed};
ghost use Rattle.acfg_model.specs.State.{BootMap};
ghost use Rattle.acfg_model.specs.Step.{IsRenewable};
ghost use Rattle.acfg_store.specs.Renewing.{IsCopyWith, IsIndexIn, TakesFlag, renewed_boot};
ghost use Rattle.acfg_store.specs.Renewing as renewing;

use crate::copying::{check_again, pick_byte};
use crate::fields::bit_byte;
use crate::looking::look_up;
use acfg_base::{OutOfMemory, place};
use acfg_images::{Checked, ImageSet, Use, restamp};
use acfg_model::{Container, FlagKey, FlagState};
use std::alloc::{AllocError, Global};

/// The files of a boot copy in which a flag has the pick of its container and a note of each override. All else is as
/// it was. The release and the boot copy both have the flag, and it is read-write in the boot copy.
///
/// # Errors
///
/// `OutOfMemory` where memory is refused.
pub(crate) fn renew_copy(
    alloc: Global,
    set: &ImageSet,
    container: &Container,
    key: &FlagKey<'_>,
) -> Result<ImageSet, OutOfMemory>
    requires copy { TakesFlag set.now key.now }
    requires released { IsSome (get container.now.release key.now) }
    ensures { IfOk result (λ made. (name : List ℕ) (boot : BootMap) → IsCopyWith set.now name boot
        → IsRenewable (Some boot) key.now → IsCopyWith made name (renewed_boot container.now key.now boot)) }
{
    let rows = container.rows();
    match place(rows, key.package(), key.flag()) {
        Ok(at) => renew_flag(alloc, set, key, &rows[at]),
        Err(_) => unreachable!(),
    }
}

// The same, by the row that the container has of the flag.
fn renew_flag(
    alloc: Global,
    set: &ImageSet,
    key: &FlagKey<'_>,
    row: &FlagState,
) -> Result<ImageSet, OutOfMemory>
    requires { TakesFlag set.now key.now }
    ensures { IfOk result (λ made. (name : List ℕ) (boot : BootMap) → IsCopyWith set.now name boot
        → IsRenewable (Some boot) key.now → IsCopyWith made name (boot_renewed row.now key.now boot)) }
{
    let checked = check_again(alloc, set, Use::Copy)?;
    let index = index_in(&checked, key);
    let count = checked.count() as usize;
    let values = with_byte(alloc, set.flag_val(), count, index, pick_byte(row))?;
    let infos = with_byte(alloc, set.flag_info(), count, index, renewed_byte(row))?;
    restamp(alloc, &checked, values.as_slice(), infos.as_slice())
}

fn renewed_byte(row: &FlagState) -> u8
    ensures { result ≡ renewing.renewed_byte row.now }
{
    2 + (bit_byte(row.server.is_some()) + 4 * bit_byte(row.local.is_some()))
}

// The global index of a flag that the set lists.
fn index_in(set: &Checked<'_>, key: &FlagKey<'_>) -> u32
    requires { IsSome (listed (parts_in set.now) key.now.0 key.now.1) }
    ensures { IsIndexIn (parts_in set.now) key.now result }
{
    match look_up(set, key) {
        Some(found) => found.index,
        None => unreachable!(),
    }
}

// The last bytes of a file, so many, with another one at an index.
fn with_byte(
    alloc: Global,
    file: &[u8],
    count: usize,
    index: u32,
    byte: u8,
) -> Result<Vec<u8>, AllocError>
    requires count { count ≤ length file.now }
    requires within { index < count }
    ensures { IfOk result (λ made. made.items ≡ slice_set (drop (length file.now - count) file.now) index byte) }
{
    let mut bytes = file[file.len() - count..].to_vec(alloc)?;
    bytes[index as usize] = byte;
    Ok(bytes)
}
