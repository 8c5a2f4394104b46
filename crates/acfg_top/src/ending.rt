//! How a command ends: it told all that it had to, or was stopped.

ghost use Rattle.std.specs.Prelude.{◌≡◌};
ghost use Rattle.acfg_daemon.specs.Replayed.{IsNoDamage};
ghost use Rattle.acfg_top.specs.Bodies.{stop_of_daemon};

use acfg_base::OutOfMemory;
use acfg_daemon::DaemonFault;
use acfg_device::{Failed, ReadFault};
use std::alloc::{AllocError, AllocFailed};

/// How a command ends that told all that it had to.
#[derive(Clone, Copy, Debug)]
pub enum Ending {
    /// The refusal of an input was told.
    Refused,
    /// The first file at fault of a device directory was told.
    Damaged,
    /// The command's work is done, and its text was told.
    Done,
}

/// Why a command ends before all is told.
#[derive(Clone, Copy, Debug)]
pub enum Stop {
    /// The outside failed.
    Failed,
    /// Memory was refused.
    OutOfMemory,
}

impl From<AllocError> for Stop {
    ghost use Rattle.std.specs.Prelude.{◌≡◌};
    ghost use Rattle.acfg_top.specs.declared.ending.Stop.TheVariants.{OutOfMemory};

    ghost from_gives = { λ _ stop. stop ≡ OutOfMemory };

    fn from(_refusal: AllocError) -> Stop {
        Stop::OutOfMemory
    }
}

impl<T: Drop> From<AllocFailed<T>> for Stop {
    ghost use Rattle.std.specs.Prelude.{◌≡◌};
    ghost use Rattle.acfg_top.specs.declared.ending.Stop.TheVariants.{OutOfMemory};

    ghost from_gives = { λ _ stop. stop ≡ OutOfMemory };

    fn from(_refusal: AllocFailed<T>) -> Stop {
        Stop::OutOfMemory
    }
}

impl From<OutOfMemory> for Stop {
    ghost use Rattle.std.specs.Prelude.{◌≡◌};
    ghost use Rattle.acfg_top.specs.declared.ending.Stop.TheVariants as stop;

    ghost from_gives = { λ _ made. made ≡ stop.OutOfMemory };

    fn from(_refusal: OutOfMemory) -> Stop {
        Stop::OutOfMemory
    }
}

impl From<Failed> for Stop {
    ghost use Rattle.std.specs.Prelude.{◌≡◌};
    ghost use Rattle.acfg_top.specs.declared.ending.Stop.TheVariants as stop;

    ghost from_gives = { λ _ made. made ≡ stop.Failed };

    fn from(_failure: Failed) -> Stop {
        Stop::Failed
    }
}

impl From<ReadFault> for Stop {
    ghost use Rattle.std.specs.Prelude.{◌≡◌};
    ghost use Rattle.acfg_top.specs.Bodies.{stop_of_read};

    ghost from_gives = { λ fault stop. stop ≡ stop_of_read fault };

    fn from(fault: ReadFault) -> Stop {
        match fault {
            ReadFault::Failed => Stop::Failed,
            ReadFault::OutOfMemory => Stop::OutOfMemory,
        }
    }
}

/// Why a command ends whose script was broken off; damage is told before.
pub fn stop_of(fault: DaemonFault) -> Stop
    requires { IsNoDamage fault }
    ensures { result ≡ stop_of_daemon fault }
{
    match fault {
        DaemonFault::Device => Stop::Failed,
        DaemonFault::OutOfMemory => Stop::OutOfMemory,
        DaemonFault::Damaged(_) => unreachable!(),
    }
}
