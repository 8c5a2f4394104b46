//! Texts as teams write them, read exactly.
#![tactic(auto)]

mod bytes;
mod classes;
mod fault;
mod grammar;
mod lexer;
mod marks;
mod memory;
mod printer;
mod quoted;
mod reader;
mod terminals;
mod token;
mod tree;
mod trees;

pub use classes::{Bracket, Class};
pub use fault::{TextFault, TextWhat};
pub use lexer::tokens;
pub use memory::OutOfMemory;
pub use printer::{print_tree, printed_again};
pub use reader::FieldReader;
pub use token::{Token, TokenKind};
pub use tree::{Item, Tree, Value};
pub use trees::{one_lexing, one_tree, read_tree};
