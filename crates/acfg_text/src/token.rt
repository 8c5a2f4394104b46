//! The tokens of the Protocol Buffers text format.

/// What a token is.
#[derive(Clone, Copy, Debug, PartialEq, Eq)]
pub enum TokenKind {
    /// A letter or `_`, and letters, digits and `_`.
    Word,
    /// A digit, and digits, letters, `_` and `.`.
    Number,
    /// A text between two `"` or two `'`.
    Quoted,
    /// One of `{ } < > [ ] : , ;`.
    Symbol,
}

/// A token of a source.
#[derive(Clone, Copy, Debug)]
pub struct Token<'a> {
    pub kind: TokenKind,
    /// Where it begins in the source.
    pub place: usize,
    /// The slice of the source at its place.
    pub text: &'a [u8],
}
