//! Why nothing was done.

ghost use Rattle.std.specs.Prelude.{◌≡◌};
ghost use Rattle.acfg_hostdev.specs.declared.faults.HostFault.TheVariants.{Failed, OutOfMemory};

use std::alloc::{AllocError, AllocFailed};
use std::io::Error;

/// Why nothing was done.
#[derive(Drop)]
pub enum HostFault {
    /// Memory was refused.
    OutOfMemory,
    /// The host failed, or gave what is taken for a failure.
    Failed,
}

impl From<AllocError> for HostFault {
    ghost from_gives = { λ _ fault. fault ≡ OutOfMemory };

    fn from(_refusal: AllocError) -> HostFault {
        HostFault::OutOfMemory
    }
}

impl<T: Drop> From<AllocFailed<T>> for HostFault {
    ghost from_gives = { λ _ fault. fault ≡ OutOfMemory };

    fn from(_refusal: AllocFailed<T>) -> HostFault {
        HostFault::OutOfMemory
    }
}

impl From<Error> for HostFault {
    ghost from_gives = { λ _ fault. fault ≡ Failed };

    fn from(_error: Error) -> HostFault {
        HostFault::Failed
    }
}
