//! Why a template or a filter is refused.

use std::alloc::{AllocError, AllocFailed};

/// Why a text is no template or no filter.
#[derive(Clone, Copy, Debug, PartialEq, Eq)]
pub enum DumpFault {
    /// The place of the first `{` or `}` of a template that begins neither a pair nor a placeholder, from 0.
    BadPlaceholder(usize),
    /// The place at which the first bad condition of a filter begins, from 0.
    BadFilter(usize),
    /// An allocation was refused.
    OutOfMemory,
}

impl From<AllocError> for DumpFault {
    ghost use Rattle.std.specs.Prelude.{◌≡◌};
    ghost use Rattle.acfg_dump.specs.declared.fault.DumpFault.TheVariants.{OutOfMemory};

    ghost from_gives = { λ _ fault. fault ≡ OutOfMemory };

    fn from(_refused: AllocError) -> DumpFault {
        DumpFault::OutOfMemory
    }
}

impl<T: Drop> From<AllocFailed<T>> for DumpFault {
    ghost use Rattle.std.specs.Prelude.{◌≡◌};
    ghost use Rattle.acfg_dump.specs.declared.fault.DumpFault.TheVariants.{OutOfMemory};

    ghost from_gives = { λ _ fault. fault ≡ OutOfMemory };

    fn from(_refused: AllocFailed<T>) -> DumpFault {
        DumpFault::OutOfMemory
    }
}
