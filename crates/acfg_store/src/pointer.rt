//! The boot pointer: one byte, the number of a slot.

ghost use Rattle.std.specs.Prelude.{◌≡◌, IfOk};
ghost use Rattle.acfg_base.specs.Found.{Finds};
ghost use Rattle.acfg_store.specs.Records.{pointer_bytes};

use crate::fields::slot_byte;
use crate::names::Slot;
use acfg_base::OutOfMemory;
use std::alloc::Global;

/// The slot that a boot pointer names; none exactly where the bytes name none.
pub fn read_pointer(bytes: &[u8]) -> Option<Slot>
    ensures { Finds (λ slot. bytes.now ≡ pointer_bytes slot) result }
{
    if bytes.len() != 1 {
        return None;
    }
    let number = bytes[0];
    if number == 0 {
        Some(Slot::Zero)
    } else if number == 1 {
        Some(Slot::One)
    } else {
        None
    }
}

/// The bytes of a boot pointer.
///
/// # Errors
///
/// An allocation was refused.
pub fn write_pointer(alloc: Global, slot: Slot) -> Result<Vec<u8>, OutOfMemory>
    ensures { IfOk result (λ bytes. bytes.items ≡ pointer_bytes slot) }
{
    let mut bytes = Vec::new(alloc);
    bytes.push(slot_byte(slot))?;
    Ok(bytes)
}
