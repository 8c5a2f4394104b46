//! Why a script ends before its last line.

use acfg_base::OutOfMemory;
use acfg_device::{Failed, ReadFault};
use acfg_store::StoreFault;
use std::alloc::{AllocError, AllocFailed};
use thiserror::Error;

/// Why a script ends before its last line.
#[derive(Debug, PartialEq, Eq, Drop, Error)]
pub enum DaemonFault {
    /// The directory stands for no state: the name of the first file at fault.
    #[error("damaged {0}")]
    Damaged(String),
    /// The outside failed.
    #[error("the outside failed")]
    Device,
    /// Memory was refused.
    #[error("memory was refused")]
    OutOfMemory,
}

impl From<OutOfMemory> for DaemonFault {
    ghost use Rattle.std.specs.Prelude.{◌≡◌};
    ghost use Rattle.acfg_daemon.specs.declared.fault.DaemonFault.TheVariants as fault;

    ghost from_gives = { λ _ made. made ≡ fault.OutOfMemory };

    fn from(_refusal: OutOfMemory) -> DaemonFault {
        DaemonFault::OutOfMemory
    }
}

impl From<AllocError> for DaemonFault {
    ghost use Rattle.std.specs.Prelude.{◌≡◌};
    ghost use Rattle.acfg_daemon.specs.declared.fault.DaemonFault.TheVariants as fault;

    ghost from_gives = { λ _ made. made ≡ fault.OutOfMemory };

    fn from(_refusal: AllocError) -> DaemonFault {
        DaemonFault::OutOfMemory
    }
}

impl<T: Drop> From<AllocFailed<T>> for DaemonFault {
    ghost use Rattle.std.specs.Prelude.{◌≡◌};
    ghost use Rattle.acfg_daemon.specs.declared.fault.DaemonFault.TheVariants as fault;

    ghost from_gives = { λ _ made. made ≡ fault.OutOfMemory };

    fn from(_refusal: AllocFailed<T>) -> DaemonFault {
        DaemonFault::OutOfMemory
    }
}

impl From<ReadFault> for DaemonFault {
    ghost use Rattle.std.specs.Prelude.{◌≡◌};
    ghost use Rattle.acfg_daemon.specs.Bodies.{fault_of};

    ghost from_gives = { λ fault made. made ≡ fault_of fault };

    fn from(fault: ReadFault) -> DaemonFault {
        match fault {
            ReadFault::Failed => DaemonFault::Device,
            ReadFault::OutOfMemory => DaemonFault::OutOfMemory,
        }
    }
}

impl From<Failed> for DaemonFault {
    ghost use Rattle.std.specs.Prelude.{◌≡◌};
    ghost use Rattle.acfg_daemon.specs.declared.fault.DaemonFault.TheVariants as fault;

    ghost from_gives = { λ _ made. made ≡ fault.Device };

    fn from(_failure: Failed) -> DaemonFault {
        DaemonFault::Device
    }
}

impl From<StoreFault> for DaemonFault {
    ghost use Rattle.std.specs.Prelude.{◌≡◌};
    ghost use Rattle.acfg_daemon.specs.Playing.{fault_of_store};

    ghost from_gives = { λ fault made. made ≡ fault_of_store fault };

    fn from(fault: StoreFault) -> DaemonFault {
        match fault {
            StoreFault::Damaged(name) => DaemonFault::Damaged(name),
            StoreFault::Device => DaemonFault::Device,
            StoreFault::OutOfMemory => DaemonFault::OutOfMemory,
        }
    }
}
