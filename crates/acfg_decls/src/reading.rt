//! What the fields of declarations and values files declare and set.

ghost use Rattle.std.specs.Prelude.{◌≡◌, [], ◌∷◌, ◌++◌, codes, filter_map, IfOk, OnOk};
ghost use Rattle.std.specs.Option.{option_copied, option_and_then};
ghost use Rattle.acfg_decls.specs.Reading.{all_in, declared_by, declared_flag, flag_at, metadata_purpose};
ghost use Rattle.acfg_decls.specs.Reading.{number_in, others_in, set_value, text_in, text_of, the_text, value_at};
ghost use Rattle.acfg_decls.specs.Reading.{value_in};

use crate::declared::{DeclarationsFile, DeclaredFlag, FlagValue, Placed};
use crate::flags::Purpose;
use crate::messages::Words;
use crate::scalars::enum_number;
use acfg_base::{Sequence, Text};
use acfg_text::{Item, Value};
use sqlite_items::Items;
use std::alloc::{AllocError, Global};

/// What has been read of a declarations file, in whose fields the walk has found no fault.
#[derive(Debug, Drop)]
pub struct Declaring {
    /// The fields that aren't flags, in the order of the file.
    pub others: Items<Item>,
    /// In the order of the file.
    pub flags: Sequence<DeclaredFlag>,
}

impl Declaring {
    /// Nothing yet, which takes no memory.
    pub fn new(alloc: Global) -> Declaring
        ensures { result ≡ record { others = []; flags = [] } }
    {
        Declaring {
            others: Items::new(alloc),
            flags: Sequence::new(alloc),
        }
    }
}

/// Keeps what a field declares. Of a flag's field nothing else is kept, so that no file's tree stands whole.
pub fn keep_field(alloc: Global, field: Item, kept: &mut Declaring) -> Result<(), AllocError>
    ensures others { OnOk result (kept.new.others ≡ kept.old.others ++ others_in (field ∷ [])) }
    ensures flags { OnOk result (kept.new.flags ≡ kept.old.flags ++ all_in flag_at (codes "flag") (field ∷ [])) }
{
    if field.name.as_str() == "flag" {
        add_flags(alloc, field.values.as_slice(), &mut kept.flags)?;
    } else {
        kept.others.push(field)?;
    }
    Ok(())
}

/// What a declarations file has, of what was read of it to its end.
pub fn declarations_of(
    alloc: Global,
    source: &str,
    kept: Declaring,
    end: usize,
) -> Result<DeclarationsFile, AllocError>
    ensures { IfOk result (λ file. file ≡ declared_by source.now kept.others kept.flags end) }
{
    let Declaring { others, flags } = kept;
    Ok(DeclarationsFile {
        source: Text::copy(alloc, source)?,
        package: the_text(alloc, "package", others.as_slice())?,
        container: text_in("container", others.as_slice())?,
        flags,
        end,
    })
}

// The value of the first field of a name.
fn value_in<'a>(name: &str, items: &'a [Item]) -> Option<&'a Value>
    ensures { option_copied result ≡ value_in name.now items.now }
{
    for item in items {
        if item.name.as_str() == name {
            return item.values.as_slice().first();
        }
    }
    None
}

// A text that a message may have.
fn text_in(name: &str, items: &[Item]) -> Result<Option<Placed>, AllocError>
    ensures { IfOk result (λ found. found ≡ text_in name.now items.now) }
{
    match value_in(name, items) {
        Some(Value::Text(place, text)) => Ok(Some(Placed {
            place: *place,
            text: text.clone()?,
        })),
        Some(_) => Ok(None),
        None => Ok(None),
    }
}

// A text that a message has.
fn the_text(alloc: Global, name: &str, items: &[Item]) -> Result<Placed, AllocError>
    ensures { IfOk result (λ found. found ≡ the_text name.now items.now) }
{
    match text_in(name, items)? {
        Some(found) => Ok(found),
        None => Ok(Placed {
            place: 0,
            text: Text::new(String::new(alloc)),
        }),
    }
}

// The number of an enum or a bool, and 0 where it isn't given.
fn number_in(words: Words, name: &str, items: &[Item]) -> u64
    ensures { result ≡ number_in words name.now items.now }
{
    match value_in(name, items) {
        Some(value) => enum_number(words, value).unwrap_or(0),
        None => 0,
    }
}

// The texts of all fields of a name.
fn texts_in(alloc: Global, name: &str, items: &[Item]) -> Result<Sequence<Text>, AllocError>
    ensures { IfOk result (λ texts. texts ≡ all_in text_of name.now items.now) }
{
    let mut texts = Sequence::from_vec(Vec::with_capacity(alloc, 1)?);
    for item in items {
        if item.name.as_str() == name {
            add_texts(item.values.as_slice(), &mut texts)?;
        }
    }
    Ok(texts)
}

fn add_texts(values: &[Value], texts: &mut Sequence<Text>) -> Result<(), AllocError>
    ensures { OnOk result (texts.new ≡ texts.old ++ filter_map text_of values.now) }
{
    for value in values {
        if let Value::Text(_, text) = value {
            texts.push(text.clone()?)?;
        }
    }
    Ok(())
}

fn add_flags(
    alloc: Global,
    values: &[Value],
    flags: &mut Sequence<DeclaredFlag>,
) -> Result<(), AllocError>
    ensures { OnOk result (flags.new ≡ flags.old ++ filter_map flag_at values.now) }
{
    for value in values {
        if let Value::Message(place, tree) = value {
            flags.push(flag_of(alloc, *place, tree.items.as_slice())?)?;
        }
    }
    Ok(())
}

// What a `flag` declares.
fn flag_of(alloc: Global, place: usize, items: &[Item]) -> Result<DeclaredFlag, AllocError>
    ensures { IfOk result (λ flag. flag ≡ declared_flag place items.now) }
{
    Ok(DeclaredFlag {
        place,
        name: the_text(alloc, "name", items)?,
        namespace: the_text(alloc, "namespace", items)?,
        description: the_text(alloc, "description", items)?,
        bugs: texts_in(alloc, "bug", items)?,
        fixed: number_in(Words::Booleans, "is_fixed_read_only", items) == 1,
        exported: number_in(Words::Booleans, "is_exported", items) == 1,
        purpose: purpose_in(items),
    })
}

// The purpose of a flag that has metadata.
fn purpose_in(items: &[Item]) -> Option<Purpose>
    ensures { result ≡ option_and_then metadata_purpose (value_in (codes "metadata") items.now) }
{
    match value_in("metadata", items) {
        Some(Value::Message(_, tree)) => match number_in(
            Words::Purposes,
            "purpose",
            tree.items.as_slice(),
        ) {
            1 => Some(Purpose::Feature),
            2 => Some(Purpose::Bugfix),
            _ => Some(Purpose::Unspecified),
        },
        Some(_) => None,
        None => None,
    }
}

/// Keeps the values that a field sets.
pub fn keep_value(
    alloc: Global,
    field: Item,
    values: &mut Sequence<FlagValue>,
) -> Result<(), AllocError>
    ensures { OnOk result (values.new ≡ values.old ++ all_in value_at (codes "flag_value") (field ∷ [])) }
{
    if field.name.as_str() == "flag_value" {
        add_set(alloc, field.values.as_slice(), values)?;
    }
    Ok(())
}

fn add_set(alloc: Global, values: &[Value], set: &mut Sequence<FlagValue>) -> Result<(), AllocError>
    ensures { OnOk result (set.new ≡ set.old ++ filter_map value_at values.now) }
{
    for value in values {
        if let Value::Message(place, tree) = value {
            set.push(value_of(alloc, *place, tree.items.as_slice())?)?;
        }
    }
    Ok(())
}

// What a `flag_value` sets.
fn value_of(alloc: Global, place: usize, items: &[Item]) -> Result<FlagValue, AllocError>
    ensures { IfOk result (λ value. value ≡ set_value place items.now) }
{
    Ok(FlagValue {
        place,
        package: the_text(alloc, "package", items)?,
        name: the_text(alloc, "name", items)?,
        enabled: number_in(Words::States, "state", items) == 1,
        writable: number_in(Words::Permissions, "permission", items) == 2,
    })
}
