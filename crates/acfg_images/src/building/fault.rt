//! Why no image is built.

use std::alloc::{AllocError, AllocFailed};

/// Why flags have no image.
#[derive(Clone, Copy, Debug, PartialEq, Eq)]
pub enum BuildFault {
    /// There are over 50,000 flags: how many, or the greatest number of 64 bits where there are more.
    TooManyFlags(u64),
    /// The four files would have over 4,194,304 bytes: how many, or the greatest number of 64 bits where there are
    /// more.
    TooLarge(u64),
    /// There was no memory for the image.
    OutOfMemory,
}

impl From<AllocError> for BuildFault {
    ghost use Rattle.std.specs.Prelude.{◌≡◌};
    ghost use Rattle.acfg_images.specs.declared.building.fault.BuildFault.TheVariants.{OutOfMemory};

    ghost from_gives = { λ _ e. e ≡ OutOfMemory };

    fn from(_refused: AllocError) -> BuildFault {
        BuildFault::OutOfMemory
    }
}
