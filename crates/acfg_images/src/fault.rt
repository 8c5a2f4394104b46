//! Why four files are no image set.

use acfg_views::ViewFault;
use std::alloc::{AllocError, AllocFailed};

/// One of the four files.
#[derive(Clone, Copy, Debug, PartialEq, Eq)]
pub enum FileType {
    PackageMap,
    FlagMap,
    FlagVal,
    FlagInfo,
}

/// On what the files disagree.
#[derive(Clone, Copy, Debug, PartialEq, Eq)]
pub enum Point2 {
    /// A file's container isn't that of `package.map`: the first such file type, and 0.
    Container,
    /// The ids of packages: the least number that isn't one, and the number of packages.
    Id,
    /// A number of flags isn't that of `flag.map`: that number, `flag.val` first, and that of `flag.map`.
    Count,
    /// A flag's package id: the first one that no package has, and the number of packages.
    Package,
    /// The global indexes: the least number that isn't had once, and how many flags have it.
    Index,
    /// The read-write bit isn't the flag's type: the least such index, and the info byte.
    Kind,
}

/// The first fault of a set, in the order of the variants.
#[derive(Clone, Copy, Debug, PartialEq, Eq)]
pub enum ImageFault {
    /// The files have too many bytes together: how many, or the greatest number of 64 bits where there are more.
    TooLarge(u64),
    /// A file's header is at fault.
    View(FileType, ViewFault),
    /// No node stands where one is expected, or bytes stand behind the last one: the offset.
    Node(FileType, u32),
    /// A node has the key of an earlier one: the first such node's offset.
    Twice(FileType, u32),
    /// A bucket doesn't hold where its first node stands, or else a node's next isn't where the next node of its
    /// bucket stands: the offset of the first such bucket, or node.
    Chain(FileType, u32),
    /// A byte of `flag.val` or `flag.info` is none of those that are lawful: the first such index.
    Bits(FileType, u32),
    /// The files don't agree.
    Disagree(Point2, u32, u32),
    /// There was no memory for the check.
    OutOfMemory,
}

impl From<AllocError> for ImageFault {
    ghost use Rattle.std.specs.Prelude.{◌≡◌};
    ghost use Rattle.acfg_images.specs.declared.fault.ImageFault.TheVariants.{OutOfMemory};

    ghost from_gives = { λ _ e. e ≡ OutOfMemory };

    fn from(_refused: AllocError) -> ImageFault {
        ImageFault::OutOfMemory
    }
}

impl<T: Drop> From<AllocFailed<T>> for ImageFault {
    ghost use Rattle.std.specs.Prelude.{◌≡◌};
    ghost use Rattle.acfg_images.specs.declared.fault.ImageFault.TheVariants.{OutOfMemory};

    ghost from_gives = { λ _ e. e ≡ OutOfMemory };

    fn from(_refused: AllocFailed<T>) -> ImageFault {
        ImageFault::OutOfMemory
    }
}
