//! Requests to the machine, and its replies.

use acfg_base::{ContainerName, Name, PackageName, Release, Text};

/// What is asked of the machine.
#[derive(Debug, Drop)]
pub enum Request {
    /// Take the release of a directory.
    Update {
        container: ContainerName,
        dir: Text,
    },
    /// Set a flag's server override.
    Server {
        container: ContainerName,
        package: PackageName,
        flag: Name,
        value: bool,
    },
    /// Set a flag's local override; where it is for now, the flag's entry in the boot copy follows at once.
    Local {
        container: ContainerName,
        package: PackageName,
        flag: Name,
        value: bool,
        now: bool,
    },
    /// Remove a flag's local override; where it is for now, the flag's entry in the boot copy follows at once.
    Unset {
        container: ContainerName,
        package: PackageName,
        flag: Name,
        now: bool,
    },
    /// Make the boot copy of every container.
    Boot,
    /// Read a flag of the boot copy.
    Get {
        container: ContainerName,
        package: PackageName,
        flag: Name,
    },
}

/// What the files of an update hold.
#[derive(Debug, Drop)]
pub enum Loaded {
    /// There is no such file.
    Missing,
    /// The files are refused.
    Bad,
    /// They don't belong together, or are of another container.
    Disagree,
    /// A release, behind the digest of its files.
    Release([u8; 32], Release),
}

/// The machine's answer to a request.
#[derive(Clone, Copy, Debug, PartialEq, Eq)]
pub enum Reply {
    Fine,
    /// A release was taken: the digest of its files, and the number of its flags.
    Updated([u8; 32], u32),
    /// The release of this digest is the one that is kept.
    Unchanged,
    /// The value in the boot copy, where that has the flag.
    Value(Option<bool>),
    /// Nothing was changed; the number is that of a `Refusal`.
    Refused(u8),
}
