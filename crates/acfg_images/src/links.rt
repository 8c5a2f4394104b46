//! Nodes as buckets and links see them.

/// A node: where it stands, its key, its bucket and its next.
#[derive(Clone, Copy, Debug)]
pub(crate) struct NodeLink<'a> {
    pub(crate) at: u32,
    /// The id of a flag's package; a package has none.
    pub(crate) owner: Option<u32>,
    pub(crate) name: &'a str,
    pub(crate) bucket: u32,
    pub(crate) next: u32,
}
