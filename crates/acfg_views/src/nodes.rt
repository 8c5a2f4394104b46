//! The nodes of the maps.

use acfg_base::Kind;

/// A node of `package.map`. Its name is a slice of the file.
#[derive(Clone, Copy, Debug, PartialEq, Eq)]
pub struct PackageNode<'a> {
    pub name: &'a str,
    /// The package's number, from 0.
    pub id: u32,
    /// The global index of the package's first flag.
    pub start: u32,
    /// Where the next node of the same bucket stands; 0 for none.
    pub next: u32,
    /// The place behind the node.
    pub end: u32,
}

/// A node of `flag.map`. Its name is a slice of the file.
#[derive(Clone, Copy, Debug, PartialEq, Eq)]
pub struct FlagNode<'a> {
    pub package_id: u32,
    pub name: &'a str,
    pub kind: Kind,
    /// The flag's index within its package.
    pub index: u16,
    /// Where the next node of the same bucket stands; 0 for none.
    pub next: u32,
    /// The place behind the node.
    pub end: u32,
}
