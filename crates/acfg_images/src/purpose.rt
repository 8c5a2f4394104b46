//! What a set is for.

/// Whether the bits of a set may note overrides.
#[derive(Clone, Copy, Debug, PartialEq, Eq)]
pub enum Use {
    /// A release, as it was built: no flag has notes.
    Release,
    /// A boot copy, or a set with overrides: read-write flags may have notes.
    Copy,
}
