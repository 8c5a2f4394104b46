//! Why files are not taken.

ghost use Rattle.std.specs.Prelude.{◌≡◌};
ghost use Rattle.acfg_store.specs.declared.names.Part.TheVariants as part;
ghost use Rattle.acfg_store.specs.Judged.{fault_in};

use crate::names::{OverrideFile, Part, Slot};
use acfg_base::OutOfMemory;
use acfg_images::FileType;
use std::alloc::AllocError;

/// The first file at fault, or want of memory.
#[derive(Clone, Copy, Debug)]
pub(crate) enum Fault<X> {
    At(X),
    OutOfMemory,
}

impl<X> From<AllocError> for Fault<X> {
    ghost use Rattle.std.specs.Prelude.{◌≡◌};
    ghost use Rattle.acfg_store.specs.declared.faults.Fault.TheVariants as fault;

    ghost from_gives = { λ _ e. e ≡ fault.OutOfMemory };

    fn from(_refused: AllocError) -> Fault<X> {
        Fault::OutOfMemory
    }
}

impl<X> From<OutOfMemory> for Fault<X> {
    ghost use Rattle.std.specs.Prelude.{◌≡◌};
    ghost use Rattle.acfg_store.specs.declared.faults.Fault.TheVariants as fault;

    ghost from_gives = { λ _ e. e ≡ fault.OutOfMemory };

    fn from(_refused: OutOfMemory) -> Fault<X> {
        Fault::OutOfMemory
    }
}

/// A fault in a release slot.
pub(crate) fn in_release(slot: Slot, fault: Fault<FileType>) -> Fault<Part>
    ensures { result ≡ fault_in (part.Release slot) fault }
{
    match fault {
        Fault::At(file) => Fault::At(Part::Release(slot, file)),
        Fault::OutOfMemory => Fault::OutOfMemory,
    }
}

/// A fault in an override slot.
pub(crate) fn in_overrides(slot: Slot, fault: Fault<OverrideFile>) -> Fault<Part>
    ensures { result ≡ fault_in (part.Override slot) fault }
{
    match fault {
        Fault::At(file) => Fault::At(Part::Override(slot, file)),
        Fault::OutOfMemory => Fault::OutOfMemory,
    }
}

/// A fault in a boot slot.
pub(crate) fn in_boot(slot: Slot, fault: Fault<FileType>) -> Fault<Part>
    ensures { result ≡ fault_in (part.Boot slot) fault }
{
    match fault {
        Fault::At(file) => Fault::At(Part::Boot(slot, file)),
        Fault::OutOfMemory => Fault::OutOfMemory,
    }
}
