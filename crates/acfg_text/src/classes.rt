//! What the grammar makes of a token.

/// A pair of brackets round a message.
#[derive(Clone, Copy, Debug, PartialEq, Eq)]
pub enum Bracket {
    /// `{` and `}`.
    Curly,
    /// `<` and `>`.
    Angle,
}

/// A terminal of the grammar.
#[derive(Clone, Copy, Debug, PartialEq, Eq)]
pub enum Class {
    Word,
    Number,
    Quoted,
    Colon,
    Comma,
    Semicolon,
    Open(Bracket),
    Close(Bracket),
    OpenList,
    CloseList,
}
