//! Why a store isn't opened.

ghost use Rattle.acfg_store.specs.StoreFaults.{NamesPart};

use crate::faults::Fault;
use crate::names::{Part, file_name};
use acfg_base::OutOfMemory;
use acfg_device::{Failed, ReadFault};
use std::alloc::{AllocError, AllocFailed, Global};
use thiserror::Error;

/// Why a store isn't opened, or a request not answered.
#[derive(Debug, Drop, Error)]
pub enum StoreFault {
    /// The directory stands for no state: the name of the first file at fault. Only an opening tells it.
    #[error("damaged {0}")]
    Damaged(String),
    /// The outside failed.
    #[error("the outside failed")]
    Device,
    /// Memory was refused.
    #[error("memory was refused")]
    OutOfMemory,
}

impl From<OutOfMemory> for StoreFault {
    ghost use Rattle.std.specs.Prelude.{◌≡◌};
    ghost use Rattle.acfg_store.specs.declared.store_fault.StoreFault.TheVariants as fault;

    ghost from_gives = { λ _ made. made ≡ fault.OutOfMemory };

    fn from(_refused: OutOfMemory) -> StoreFault {
        StoreFault::OutOfMemory
    }
}

impl From<AllocError> for StoreFault {
    ghost use Rattle.std.specs.Prelude.{◌≡◌};
    ghost use Rattle.acfg_store.specs.declared.store_fault.StoreFault.TheVariants as fault;

    ghost from_gives = { λ _ made. made ≡ fault.OutOfMemory };

    fn from(_refused: AllocError) -> StoreFault {
        StoreFault::OutOfMemory
    }
}

impl<T: Drop> From<AllocFailed<T>> for StoreFault {
    ghost use Rattle.std.specs.Prelude.{◌≡◌};
    ghost use Rattle.acfg_store.specs.declared.store_fault.StoreFault.TheVariants as fault;

    ghost from_gives = { λ _ made. made ≡ fault.OutOfMemory };

    fn from(_refused: AllocFailed<T>) -> StoreFault {
        StoreFault::OutOfMemory
    }
}

impl From<ReadFault> for StoreFault {
    ghost use Rattle.std.specs.Prelude.{◌≡◌};
    ghost use Rattle.acfg_store.specs.StoreFaults.{fault_of};

    ghost from_gives = { λ fault made. made ≡ fault_of fault };

    fn from(fault: ReadFault) -> StoreFault {
        match fault {
            ReadFault::Failed => StoreFault::Device,
            ReadFault::OutOfMemory => StoreFault::OutOfMemory,
        }
    }
}

impl From<Failed> for StoreFault {
    ghost use Rattle.std.specs.Prelude.{◌≡◌};
    ghost use Rattle.acfg_store.specs.declared.store_fault.StoreFault.TheVariants as fault;

    ghost from_gives = { λ _ made. made ≡ fault.Device };

    fn from(_failure: Failed) -> StoreFault {
        StoreFault::Device
    }
}

/// The name of the part at fault.
pub(crate) fn name_fault(
    alloc: Global,
    dir: &str,
    container: &str,
    fault: Fault<Part>,
) -> StoreFault
    ensures { NamesPart dir.now container.now fault result }
{
    match fault {
        Fault::At(part) => name_part(alloc, dir, container, part),
        Fault::OutOfMemory => StoreFault::OutOfMemory,
    }
}

fn name_part(alloc: Global, dir: &str, container: &str, part: Part) -> StoreFault
    ensures { NamesPart dir.now container.now (Fault.At part) result }
{
    match file_name(alloc, dir, container, part) {
        Ok(name) => StoreFault::Damaged(name),
        Err(OutOfMemory) => StoreFault::OutOfMemory,
    }
}
