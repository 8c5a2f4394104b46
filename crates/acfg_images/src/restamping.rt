//! Sets with other values and bits.

ghost use Rattle.std.specs.Prelude.{◌≡◌, ◌≤◌, ◌++◌, IfOk, length, take, ◌-◌};
ghost use Rattle.acfg_images.specs.Files.{Files};
ghost use Rattle.acfg_images.specs.declared.purpose.Use.TheVariants.{Copy};
ghost use Rattle.acfg_images.specs.Set.{IsSetOf};
ghost use Rattle.acfg_images.specs.Faults.{parts_in, files_in};
ghost use Rattle.acfg_images.specs.Restamp.{CanRestamp, restamped};

use crate::checked::Checked;
use crate::set::ImageSet;
use acfg_base::OutOfMemory;
use std::alloc::{AllocError, Global};

/// The set with the same maps and these value and info bytes, by global index: a set for `Use::Copy`.
///
/// # Errors
///
/// `OutOfMemory` where memory is refused.
pub fn restamp(
    alloc: Global,
    set: &Checked<'_>,
    values: &[u8],
    infos: &[u8],
) -> Result<ImageSet, OutOfMemory>
    requires { CanRestamp (parts_in set.now) values.now infos.now }
    ensures package_map { IfOk result (λ made. made.package_map ≡ (files_in set.now).package_map) }
    ensures flag_map { IfOk result (λ made. made.flag_map ≡ (files_in set.now).flag_map) }
    ensures set { IfOk result (λ made. IsSetOf made Copy (restamped (parts_in set.now) values.now infos.now)) }
{
    set.are_open();
    let set = set.set();
    Ok(ImageSet::new(
        set.package_map().to_vec(alloc)?,
        set.flag_map().to_vec(alloc)?,
        with_bytes(alloc, set.flag_val(), values)?,
        with_bytes(alloc, set.flag_info(), infos)?,
    ))
}

// A file with other bytes at its end.
fn with_bytes(alloc: Global, file: &[u8], bytes: &[u8]) -> Result<Vec<u8>, AllocError>
    requires { length bytes.now ≤ length file.now }
    ensures { IfOk result (λ made. made.items ≡ take (length file.now - length bytes.now) file.now ++ bytes.now) }
{
    let mut made = Vec::with_capacity(alloc, file.len())?;
    made.extend_from_slice(&file[..file.len() - bytes.len()])?;
    made.extend_from_slice(bytes)?;
    Ok(made)
}
