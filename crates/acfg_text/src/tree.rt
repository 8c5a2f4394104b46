//! Trees of texts in the Protocol Buffers text format.

use acfg_base::Text;
use sqlite_items::Items;

/// The fields of a text or of a message.
#[cycle(tree)]
#[derive(Debug, Drop)]
pub struct Tree {
    /// In the order of the text.
    pub items: Items<Item>,
    /// The place of the message's closing bracket, or the text's length.
    pub end: usize,
}

/// One field: a name and its values.
#[cycle(tree)]
#[derive(Debug, Drop)]
pub struct Item {
    pub name: Text,
    /// The place of the name.
    pub place: usize,
    /// Whether the values stood between `[` and `]`; else there is one value.
    pub listed: bool,
    pub values: Items<Value>,
}

/// One value of a field, with the place of its first token.
#[cycle(tree)]
#[derive(Debug, Drop)]
pub enum Value {
    /// A word, as it is spelled.
    Word(usize, Text),
    /// A number, as it is spelled.
    Number(usize, Text),
    /// The joined value of one or more quoted texts.
    Text(usize, Text),
    /// A message, at its opening bracket.
    Message(usize, Tree),
}
