//! Texts read field by field, so that a reader of a large text need not hold its tree.

ghost use Rattle.std.specs.Prelude.{◌≡◌, ℕ, [], ◌<◌, ◌≤◌, length, IfOk, IfErr, IfSome, MatchOption, OnErr, OnOk};
ghost use Rattle.acfg_text.specs.TextFaults.{IfAt};
ghost use Rattle.acfg_text.specs.Spells.{FirstFault};
ghost use Rattle.acfg_text.specs.Progress.{Fails, HasRead, IsAll, IsReadable, Reads};
ghost use Rattle.acfg_text.specs.Reading.{cursor, ahead, ArePlain, FailsNext, NoField, ReadsField};

use crate::fault::{TextFault, TextWhat};
use crate::grammar::read_field;
use crate::lexer::lexed;
use crate::marks::Tokens;
use crate::terminals::{field_name, peek};
use crate::tree::Item;
use std::alloc::Global;
use std::marker::Model;

/// Reads the text's own fields one after another. Contracts see what is left to read.
#[derive(Debug, Drop)]
pub struct FieldReader<'a> {
    tokens: Tokens<'a>,
    // The text's length.
    end: usize,
    // The number of the token that the next field begins with.
    at: usize,
}

impl<'a> Model for FieldReader<'a> {
    ghost use Rattle.acfg_text.specs.Progress.{Rest, rest_of};
    ghost use Rattle.acfg_text.specs.Reading.{IsReadAt};

    ghost Value = { Rest };

    ghost view = { λ it. rest_of it.tokens it.end it.at };

    ghost invariant = { λ it. IsReadAt it.tokens it.at };
}

impl<'a> FieldReader<'a> {
    /// A reader of a text, before its first field.
    ///
    /// # Errors
    /// The first fault of the text's tokens.
    pub fn new(alloc: Global, source: &'a [u8]) -> Result<FieldReader<'a>, TextFault>
        ensures ok { IfOk result (HasRead source.now []) }
        ensures err { IfErr result (λ failure. IfAt failure (FirstFault source.now)) }
    {
        let tokens = lexed(alloc, source)?;
        Ok(FieldReader {
            tokens,
            end: source.len(),
            at: 0,
        })
    }

    /// The next field of the tree that the text spells, and none behind the last one. 32 messages may be open in one
    /// another in it.
    ///
    /// # Errors
    /// The first fault of the grammar, with its place. The reader then stands where it stood.
    pub fn next(&mut self, alloc: Global) -> Result<Option<Item>, TextFault>
        ensures ok { IfOk result (λ read. MatchOption read (IsAll self.old) (λ field. Reads self.old field self.new)) }
        ensures shorter { IfOk result (λ read. IfSome read (λ field.
            length self.new.ahead < length self.old.ahead)) }
        ensures err { IfErr result (λ failure. IfAt failure (Fails self.old)) }
        ensures stays { OnErr result (self.new ≡ self.old) }
    {
        let Some((field, next)) = next_field(alloc, &self.tokens, self.end, self.at)? else {
            return Ok(None);
        };
        self.at = next;
        Ok(Some(field))
    }

    /// Reads what is left, of which nothing is kept.
    ///
    /// # Errors
    /// As those of `next`. Nothing is said of where the reader then stands.
    pub fn pass(&mut self, alloc: Global) -> Result<(), TextFault>
        ensures ok { OnOk result (IsReadable self.old) }
        ensures err { IfErr result (λ failure. IfAt failure (Fails self.old)) }
    {
        while let Some(field) = self.next(alloc)? {
            drop(field);
        }
        Ok(())
    }
}

// The field that begins at a token, and the number of the token behind it; none at the end of the text.
fn next_field(
    alloc: Global,
    tokens: &Tokens<'_>,
    end: usize,
    at: usize,
) -> Result<Option<(Item, usize)>, TextFault>
    requires plain { ArePlain tokens.now }
    ensures ok { IfOk result (λ read.
        MatchOption read (ahead tokens.now at ≡ []) (λ r. ReadsField (cursor tokens.now end 0 at) r.0 r.1)) }
    ensures within { IfOk result (λ read. IfSome read (λ r. (at < r.1) × (r.1 ≤ length tokens.now))) }
    ensures err { IfErr result (λ failure. IfAt failure (FailsNext tokens.now end at)) }
{
    let Some(name) = field_name(tokens, at) else {
        require_end(tokens, at)?;
        return Ok(None);
    };
    let (field, next) = read_field(alloc, tokens, end, name, at, 0)?;
    Ok(Some((field, next)))
}

// No field begins here, so the text has to end.
fn require_end(tokens: &Tokens<'_>, at: usize) -> Result<(), TextFault>
    requires plain { ArePlain tokens.now }
    requires fields { NoField (ahead tokens.now at) }
    ensures ok { OnOk result (ahead tokens.now at ≡ []) }
    ensures err { IfErr result (λ failure. IfAt failure (λ p w. (end : ℕ) → FailsNext tokens.now end at p w)) }
{
    match peek(tokens, at) {
        None => Ok(()),
        Some(seen) => Err(TextFault::At(seen.place, TextWhat::Unexpected)),
    }
}
