//! What a look-up finds.

use acfg_base::Kind;

/// A package that was found.
#[derive(Clone, Copy, Debug, PartialEq, Eq)]
pub struct PackageAt {
    /// The package's number, from 0.
    pub id: u32,
    /// The global index of the package's first flag.
    pub start: u32,
}

/// A flag that was found.
#[derive(Clone, Copy, Debug, PartialEq, Eq)]
pub struct Found {
    pub kind: Kind,
    pub value: bool,
    /// The flag's bits: 1 server override, 2 read-write, 4 local override.
    pub bits: u8,
    /// The flag's global index.
    pub index: u32,
}
