//! Files of declarations and values, read or refused.

ghost use Rattle.std.specs.Prelude.{◌≡◌, ◌⊎◌, ℕ, List, None, IfOk, IfErr, OnOk};
ghost use Rattle.acfg_decls.specs.Compile.{IfAt};
ghost use Rattle.acfg_text.specs.declared.tree.Tree.{Tree};
ghost use Rattle.acfg_decls.specs.declared.declared.DeclarationsFile.{DeclarationsFile};
ghost use Rattle.acfg_decls.specs.declared.declared.ValuesFile.{ValuesFile};
ghost use Rattle.acfg_decls.specs.declared.faults.DeclWhat.{DeclWhat};
ghost use Rattle.acfg_decls.specs.declared.messages.Message.{Message};
ghost use Rattle.acfg_decls.specs.Reading.{Declares, FailsAt, Passes, Refuses, Sets};
ghost use Rattle.acfg_decls.specs.Walk.{first, item_faults, walk};

use crate::declared::{Declarations, Values, ValuesFile};
use crate::faults::{DeclFault, DeclWhat};
use crate::messages::Message;
use crate::reading::{Declaring, declarations_of, keep_field, keep_value};
use crate::walk::{is_whole, item_fault};
use acfg_base::{Sequence, Text};
use acfg_text::{FieldReader, Item};
use std::alloc::Global;

/// No message in a field of a file is deeper than this in another.
const DEPTH: usize = 2;

/// Reads a declarations file, which is a `flag_declarations` in the Protocol Buffers text format. `source` is the name
/// that its flags' first points have.
///
/// # Errors
/// The text's first fault, else the first of a walk over its messages in text order, depth first: an unknown field, one
/// that is given twice or as a list where it stands once, a value of another form, and at a message's end a missing
/// field.
pub fn read_declarations(
    alloc: Global,
    source: &str,
    bytes: &[u8],
) -> Result<Declarations, DeclFault>
    ensures ok { IfOk result (Declares source.now bytes.now) }
    ensures err { IfErr result (λ fault. IfAt fault (Refuses Message.FlagDeclarations bytes.now)) }
{
    let mut fields = FieldReader::new(alloc, bytes)?;
    let mut kept = Declaring::new(alloc);
    while let Some(field) = fields.next(alloc)? {
        let earlier = kept.others.as_slice();
        test_field(
            alloc,
            Message::FlagDeclarations,
            earlier,
            &field,
            &mut fields,
        )?;
        keep_field(alloc, field, &mut kept)?;
    }
    let others = kept.others.as_slice();
    if is_whole(Message::FlagDeclarations, others) {
        Ok(Declarations::new(declarations_of(alloc, source, kept, bytes.len())?))
    } else {
        Err(DeclFault::At(bytes.len(), DeclWhat::MissingField))
    }
}

/// Reads a values file, which is a `flag_values` in the Protocol Buffers text format. `source` is the name that its
/// values' points have.
///
/// # Errors
/// As those of declarations.
pub fn read_values(alloc: Global, source: &str, bytes: &[u8]) -> Result<Values, DeclFault>
    ensures ok { IfOk result (Sets source.now bytes.now) }
    ensures err { IfErr result (λ fault. IfAt fault (Refuses Message.FlagValues bytes.now)) }
{
    let mut fields = FieldReader::new(alloc, bytes)?;
    let mut values = Sequence::new(alloc);
    while let Some(field) = fields.next(alloc)? {
        test_field(alloc, Message::FlagValues, &[], &field, &mut fields)?;
        keep_value(alloc, field, &mut values)?;
    }
    Ok(Values::new(ValuesFile {
        source: Text::copy(alloc, source)?,
        values,
    }))
}

// Tests a field of a file behind others, and behind a fault of it reads what is left: a fault of the text comes first.
fn test_field(
    alloc: Global,
    message: Message,
    earlier: &[Item],
    field: &Item,
    fields: &mut FieldReader<'_>,
) -> Result<(), DeclFault>
    ensures sound { OnOk result (first (item_faults (walk 2) message earlier.now field.now) ≡ None) }
    ensures stays { OnOk result (fields.new ≡ fields.old) }
    ensures err { IfErr result (λ fault. IfAt fault (FailsAt message earlier.now field.now fields.old)) }
{
    match item_fault(DEPTH, message, earlier, field) {
        Some((place, what)) => {
            fields.pass(alloc)?;
            Err(DeclFault::At(place, what))
        }
        None => Ok(()),
    }
}

/// A text is read in one way or refused with one fault, never both, and in one of the two ways.
pub fn one_reading()
    ensures declares { (source text : List ℕ) (file other : DeclarationsFile) → Declares source text file
        → Declares source text other → file ≡ other }
    ensures sets { (source text : List ℕ) (file other : ValuesFile) → Sets source text file → Sets source text other
        → file ≡ other }
    ensures refuses { (message : Message) (text : List ℕ) (place other_place : ℕ) (fault other : DeclWhat)
        → Refuses message text place fault → Refuses message text other_place other
        → (place ≡ other_place) × (fault ≡ other) }
    ensures apart { (message : Message) (text : List ℕ) (tree : Tree) (place : ℕ) (fault : DeclWhat)
        → Passes message text tree → Refuses message text place fault → ⊥ }
    ensures some { (message : Message) (text : List ℕ)
        → ((tree : Tree) × Passes message text tree)
        ⊎ ((place : ℕ) × (fault : DeclWhat) × Refuses message text place fault) }
{}
