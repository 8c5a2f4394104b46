//! Trees printed as one line of text.

ghost use Rattle.std.specs.Prelude.{◌≡◌, ◌++◌, ◌∷◌, [], map, IfOk, OnOk, codes, ℕ, List};
ghost use Rattle.std.specs.List.{flat_map};
ghost use Rattle.acfg_text.specs.Spells.{Spells};
ghost use Rattle.acfg_text.specs.Unplaced.{unplaced};
ghost use Rattle.acfg_text.specs.Printed.{printed_byte, quoted, held, braced, bracketed, separated, shown};
ghost use Rattle.acfg_text.specs.Printed.{printed_item, printed_fields, printed};

use crate::memory::OutOfMemory;
use crate::tree::{Item, Tree, Value};
use std::alloc::{AllocError, Global};

/// A tree as one line without a line feed: fields with one space between each two, `name: V`, `name { FIELDS }` or,
/// where the field was listed, `name: [V, V]`. Words and numbers stand as they are spelled, texts in double quotes.
/// What is printed of a tree that a text spells is read as the same tree, places aside.
pub fn print_tree(alloc: Global, tree: &Tree) -> Result<Vec<u8>, OutOfMemory>
    ensures { IfOk result (λ text. text.items ≡ printed tree.now) }
{
    let mut out = Vec::new(alloc);
    print_items(&mut out, tree.items.as_slice())?;
    Ok(out)
}

// Fields with a space between each two.
fn print_items(out: &mut Vec<u8>, items: &[Item]) -> Result<(), AllocError>
    ensures { OnOk result (out.new.items ≡ out.old.items ++ separated (32 ∷ []) (map printed_item items.now)) }
{
    match items {
        [] => Ok(()),
        [first, others @ ..] => {
            print_item(out, first)?;
            for item in others {
                out.push(b' ')?;
                print_item(out, item)?;
            }
            Ok(())
        }
    }
}

/// What is printed of the tree that a text spells, spells the same tree, places aside.
pub fn printed_again()
    ensures { (text : List ℕ) (read : Tree) → Spells text read
        → (again : Tree) × Spells (printed read) again × (unplaced again ≡ unplaced read) }
{}

#[cycle(printing)]
fn print_item(out: &mut Vec<u8>, item: &Item) -> Result<(), AllocError>
    ensures { OnOk result (out.new.items ≡ out.old.items ++ printed_item item.now) }
{
    out.extend_from_slice(item.name.as_str().as_bytes())?;
    if item.listed {
        print_list(out, item.values.as_slice())?;
    } else {
        print_held(out, item.values.as_slice())?;
    }
    Ok(())
}

// The values of a field that isn't a list.
#[cycle(printing)]
fn print_held(out: &mut Vec<u8>, values: &[Value]) -> Result<(), AllocError>
    ensures { OnOk result (out.new.items ≡ out.old.items ++ flat_map held (map shown values.now)) }
{
    for value in values {
        if is_message(value) {
            out.push(b' ')?;
        } else {
            out.extend_from_slice(b": ")?;
        }
        print_value(out, value)?;
    }
    Ok(())
}

#[cycle(printing)]
fn print_list(out: &mut Vec<u8>, values: &[Value]) -> Result<(), AllocError>
    ensures { OnOk result (out.new.items ≡ out.old.items ++ bracketed (map shown values.now)) }
{
    out.extend_from_slice(b": [")?;
    print_values(out, values)?;
    out.push(b']')?;
    Ok(())
}

#[cycle(printing)]
fn print_values(out: &mut Vec<u8>, values: &[Value]) -> Result<(), AllocError>
    ensures { OnOk result (out.new.items ≡ out.old.items
        ++ separated (codes ", ") (map (λ v. v.text) (map shown values.now))) }
{
    match values {
        [] => Ok(()),
        [first, others @ ..] => {
            print_value(out, first)?;
            for value in others {
                out.extend_from_slice(b", ")?;
                print_value(out, value)?;
            }
            Ok(())
        }
    }
}

#[cycle(printing)]
fn print_value(out: &mut Vec<u8>, value: &Value) -> Result<(), AllocError>
    ensures { OnOk result (out.new.items ≡ out.old.items ++ (shown value.now).text) }
{
    match value {
        Value::Word(_, text) => out.extend_from_slice(text.as_str().as_bytes())?,
        Value::Number(_, text) => out.extend_from_slice(text.as_str().as_bytes())?,
        Value::Text(_, text) => print_text(out, text.as_str().as_bytes())?,
        Value::Message(_, tree) => print_message(out, tree)?,
    }
    Ok(())
}

#[cycle(printing)]
fn print_message(out: &mut Vec<u8>, tree: &Tree) -> Result<(), AllocError>
    ensures { OnOk result (out.new.items ≡ out.old.items ++ braced (printed_fields tree.now)) }
{
    out.extend_from_slice(b"{ ")?;
    print_fields(out, tree.items.as_slice())?;
    out.push(b'}')?;
    Ok(())
}

// Fields with a space behind each.
#[cycle(printing)]
fn print_fields(out: &mut Vec<u8>, items: &[Item]) -> Result<(), AllocError>
    ensures { OnOk result (out.new.items ≡ out.old.items ++ flat_map (λ f. f ++ 32 ∷ []) (map printed_item items.now)) }
{
    for item in items {
        print_item(out, item)?;
        out.push(b' ')?;
    }
    Ok(())
}

fn is_message(value: &Value) -> bool
    ensures { result ≡ (shown value.now).message }
{
    match value {
        Value::Message(_, _) => true,
        _ => false,
    }
}

fn print_text(out: &mut Vec<u8>, text: &[u8]) -> Result<(), AllocError>
    ensures { OnOk result (out.new.items ≡ out.old.items ++ quoted text.now) }
{
    out.push(b'"')?;
    for byte in text {
        print_byte(out, *byte)?;
    }
    out.push(b'"')?;
    Ok(())
}

#[tactic(auto, unfolding(crate::specs::Printed::printed_byte))]
fn print_byte(out: &mut Vec<u8>, byte: u8) -> Result<(), AllocError>
    ensures { OnOk result (out.new.items ≡ out.old.items ++ printed_byte byte) }
{
    if byte == b'\\' {
        out.extend_from_slice(b"\\\\")?;
    } else if byte == b'"' {
        out.extend_from_slice(b"\\\"")?;
    } else if 0x20 <= byte && byte <= 0x7E {
        out.push(byte)?;
    } else {
        let digits = [
            b'\\',
            b'0' + byte / 64,
            b'0' + byte / 8 % 8,
            b'0' + byte % 8,
        ];
        out.extend_from_slice(&digits)?;
    }
    Ok(())
}
