//! Why bytes are no storage file, or no node of one.

/// The first fault of a header or of a node, in byte order.
#[derive(Clone, Copy, Debug, PartialEq, Eq)]
pub enum ViewFault {
    /// A field isn't whole in the bytes.
    Short,
    /// The version isn't 1.
    BadVersion(u32),
    /// The container, or the name of a package or a flag, is no lawful one.
    BadText,
    /// The file is of another type.
    BadFileType(u8),
    /// The file's size isn't its number of bytes.
    BadSize(u32),
    /// Buckets, nodes or bytes don't begin or end where they have to.
    BadOffsets,
    /// The flag's type isn't 0, 1 or 2.
    BadKind(u16),
}
