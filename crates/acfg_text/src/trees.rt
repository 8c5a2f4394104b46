//! Texts read into trees.

ghost use Rattle.std.specs.Prelude.{◌≡◌, ◌⊎◌, ℕ, List, length, map, IfOk, IfErr};
ghost use Rattle.acfg_text.specs.declared.fault.TextWhat.{TextWhat};
ghost use Rattle.acfg_text.specs.Terminals.{Lexeme, terminal_of};
ghost use Rattle.acfg_text.specs.Lexes.{Lexes, AreSlices};
ghost use Rattle.acfg_text.specs.TextFaults.{IfAt, Rising};
ghost use Rattle.acfg_text.specs.Spells.{Spells, FirstFault};

use crate::fault::TextFault;
use crate::reader::FieldReader;
use crate::tree::Tree;
use sqlite_items::Items;
use std::alloc::Global;

/// The tree that a text spells: the Protocol Buffers text format. Of the text's own fields 32 messages may be open
/// in one another.
///
/// # Errors
/// The first fault of the tokens, and where there is none the first of the grammar, with its place.
pub fn read_tree(alloc: Global, source: &[u8]) -> Result<Tree, TextFault>
    ensures ok { IfOk result (Spells source.now) }
    ensures err { IfErr result (λ failure. IfAt failure (FirstFault source.now)) }
{
    let mut fields = FieldReader::new(alloc, source)?;
    let mut items = Items::new(alloc);
    while let Some(field) = fields.next(alloc)? {
        items.push(field)?;
    }
    Ok(Tree {
        items,
        end: source.len(),
    })
}

/// A text spells at most one tree, or is refused with one first fault, and never both; and there is one of the two.
pub fn one_tree()
    ensures read { (text : List ℕ) (read other : Tree) → Spells text read → Spells text other → read ≡ other }
    ensures refused { (text : List ℕ) (place other_place : ℕ) (what other_what : TextWhat)
        → FirstFault text place what → FirstFault text other_place other_what
        → (place ≡ other_place) × (what ≡ other_what) }
    ensures apart { (text : List ℕ) (read : Tree) (place : ℕ) (what : TextWhat) → Spells text read
        → FirstFault text place what → ⊥ }
    ensures some { (text : List ℕ)
        → ((read : Tree) × Spells text read) ⊎ ((place : ℕ) × (what : TextWhat) × FirstFault text place what) }
{}

/// A text lexes to at most one list of tokens; each is the slice of the text at its place, and places rise.
pub fn one_lexing()
    ensures found { (text : List ℕ) (found others : List Lexeme) → Lexes text found → Lexes text others
        → found ≡ others }
    ensures slices { (text : List ℕ) (found : List Lexeme) → Lexes text found → AreSlices text found }
    ensures rising { (text : List ℕ) (found : List Lexeme) → Lexes text found
        → Rising 0 (map terminal_of found) (length text) }
{}
