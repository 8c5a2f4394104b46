//! The list of containers, and the slot that isn't named.

ghost use Rattle.std.specs.Prelude.{◌≡◌, IfOk, map};
ghost use Rattle.acfg_store.specs.Kept.{entry_of};
ghost use Rattle.acfg_store.specs.Opening.{AreKept, entries_of};
ghost use Rattle.acfg_store.specs.Records.{records_bytes};
ghost use Rattle.acfg_store.specs.Stands.{recorded};
ghost use Rattle.acfg_store.specs.Turned.{other_slot};

use crate::containers::Kept;
use crate::names::Slot;
use crate::records::{Recorded, write_records};
use acfg_base::OutOfMemory;
use std::alloc::{AllocError, Global};

/// The bytes of `records` that list these containers.
pub(crate) fn write_listed(alloc: Global, kept: &[Kept]) -> Result<Vec<u8>, OutOfMemory>
    requires { AreKept kept.now }
    ensures { IfOk result (λ bytes. bytes.items ≡ records_bytes (map recorded (entries_of kept.now))) }
{
    let rows = listed_rows(alloc, kept)?;
    write_records(alloc, rows.as_slice())
}

fn listed_rows(alloc: Global, kept: &[Kept]) -> Result<Vec<Recorded>, AllocError>
    ensures { IfOk result (λ rows. rows.items ≡ map recorded (entries_of kept.now)) }
{
    let mut rows = Vec::with_capacity(alloc, kept.len())?;
    for one in kept {
        rows.push(one.listed()?)?;
    }
    Ok(rows)
}

impl Kept {
    // The container as `records` lists it.
    fn listed(&self) -> Result<Recorded, AllocError>
        ensures { IfOk result (λ row. row ≡ recorded (entry_of self.now)) }
    {
        Ok(Recorded {
            name: self.name.clone()?,
            release: self.release_slot,
            overrides: self.override_slot,
            digest: self.container.digest(),
        })
    }
}

impl Slot {
    /// The slot that isn't this one.
    pub(crate) fn other(self) -> Slot
        ensures { result ≡ other_slot self }
    {
        match self {
            Slot::Zero => Slot::One,
            Slot::One => Slot::Zero,
        }
    }
}
