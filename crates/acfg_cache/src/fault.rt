//! Why bytes are no cache, and why lists of flags aren't merged.

ghost use Rattle.std.specs.Prelude.{◌≡◌};

use acfg_base::{OutOfMemory, Text};
use acfg_wire::WireFault;
use std::alloc::{AllocError, AllocFailed};

/// The first fault of a cache. Each but `Wire` tells the flag's position in the cache, from 0.
#[derive(Clone, Copy, Debug, PartialEq, Eq)]
pub enum CacheFault {
    /// The bytes of the cache, of a flag or of a message in it aren't fields. The place is that of the field's key in
    /// the whole cache. It is never `WireFault::OutOfMemory`.
    Wire(WireFault),
    /// A string isn't UTF-8.
    BadText(usize),
    /// A number isn't one of its enum's, on all of its 64 bits.
    BadEnum(usize),
    /// A field that a flag or a trace requires isn't there, or there is no trace.
    Missing(usize),
    /// The package, name, namespace or container isn't a lawful name.
    BadName(usize),
    /// The flag is fixed and READ_WRITE.
    BadPermission(usize),
    /// The flag's `package.name` is less than that of the flag before.
    Unsorted(usize),
    /// The flag's `package.name` is equal to that of the flag before.
    Duplicate(usize),
    /// Memory was refused.
    OutOfMemory,
}

impl From<AllocError> for CacheFault {
    ghost use Rattle.acfg_cache.specs.declared.fault.CacheFault.TheVariants.{OutOfMemory};

    ghost from_gives = { λ _ fault. fault ≡ OutOfMemory };

    fn from(_refused: AllocError) -> CacheFault {
        CacheFault::OutOfMemory
    }
}

impl<T: Drop> From<AllocFailed<T>> for CacheFault {
    ghost use Rattle.acfg_cache.specs.declared.fault.CacheFault.TheVariants.{OutOfMemory};

    ghost from_gives = { λ _ fault. fault ≡ OutOfMemory };

    fn from(_refused: AllocFailed<T>) -> CacheFault {
        CacheFault::OutOfMemory
    }
}

impl From<OutOfMemory> for CacheFault {
    ghost use Rattle.acfg_cache.specs.declared.fault.CacheFault.TheVariants.{OutOfMemory};

    ghost from_gives = { λ _ fault. fault ≡ OutOfMemory };

    fn from(_refused: OutOfMemory) -> CacheFault {
        CacheFault::OutOfMemory
    }
}

/// Why lists of flags aren't merged.
#[derive(Debug, Drop)]
pub enum MergeFault {
    /// Two lists have a flag of this `package.name` that don't go together. The number is the position of the first
    /// list whose flag clashes with one of an earlier list; the name is the least that clashes.
    Clash(usize, Text),
    /// Memory was refused.
    OutOfMemory,
}

impl From<AllocError> for MergeFault {
    ghost use Rattle.acfg_cache.specs.declared.fault.MergeFault.TheVariants.{OutOfMemory};

    ghost from_gives = { λ _ fault. fault ≡ OutOfMemory };

    fn from(_refused: AllocError) -> MergeFault {
        MergeFault::OutOfMemory
    }
}

impl<T: Drop> From<AllocFailed<T>> for MergeFault {
    ghost use Rattle.acfg_cache.specs.declared.fault.MergeFault.TheVariants.{OutOfMemory};

    ghost from_gives = { λ _ fault. fault ≡ OutOfMemory };

    fn from(_refused: AllocFailed<T>) -> MergeFault {
        MergeFault::OutOfMemory
    }
}
