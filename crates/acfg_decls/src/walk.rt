//! The walk over messages: which fault of a message comes first.

ghost use Rattle.std.specs.Prelude.{◌≡◌, ◌&&◌, ◌||◌};
ghost use Rattle.std.specs.List.{flat_map, list_all};
ghost use Rattle.acfg_text.specs.declared.tree.Item.{out-Item};
ghost use Rattle.acfg_decls.specs.Walk.{first, inside, is_of, is_once, is_required, is_whole, item_faults, stands};
ghost use Rattle.acfg_decls.specs.Walk.{walk};

use crate::faults::DeclWhat;
use crate::messages::{Field, Form, Message, Often, find_field};
use crate::scalars::enum_number;
use acfg_text::{Item, Tree, Value};

// The first fault of a message and of the messages in it, so many deep: its byte place, and what is wrong.
#[cycle(walking)]
fn first_fault(depth: usize, message: Message, tree: &Tree) -> Option<(usize, DeclWhat)>
    ensures { result ≡ first (walk depth message tree.now) }
{
    if depth == 0 {
        return None;
    }
    let items = tree.items.as_slice();
    for item in 0..items.len() {
        if let Some(fault) = item_fault(depth - 1, message, &items[..item], &items[item]) {
            return Some(fault);
        }
    }
    if is_whole(message, items) {
        None
    } else {
        Some((tree.end, DeclWhat::MissingField))
    }
}

/// The first fault of a field behind others, and of the messages in it.
#[cycle(walking)]
pub fn item_fault(
    depth: usize,
    message: Message,
    earlier: &[Item],
    item: &Item,
) -> Option<(usize, DeclWhat)>
    ensures { result ≡ first (item_faults (walk depth) message earlier.now item.now) }
{
    let Some(field) = find_field(message, item.name.as_str()) else {
        return Some((item.place, DeclWhat::UnknownField));
    };
    if is_given_twice(field.often, earlier, item) {
        return Some((item.place, DeclWhat::TwiceGiven));
    }
    if !are_of(field.form, item.values.as_slice()) {
        return Some((item.place, DeclWhat::BadScalar));
    }
    inner_fault(depth, field.form, item.values.as_slice())
}

// The first fault within values that are messages.
#[cycle(walking)]
fn inner_fault(depth: usize, form: Form, values: &[Value]) -> Option<(usize, DeclWhat)>
    ensures { result ≡ first (flat_map (inside (walk depth) form) values.now) }
{
    for value in values {
        if let Some(fault) = value_fault(depth, form, value) {
            return Some(fault);
        }
    }
    None
}

// The first fault within a value, where it is a message.
#[cycle(walking)]
fn value_fault(depth: usize, form: Form, value: &Value) -> Option<(usize, DeclWhat)>
    ensures { result ≡ first (inside (walk depth) form value.now) }
{
    match form {
        Form::Inner(message) => match value {
            Value::Message(_, tree) => first_fault(depth, message, tree),
            _ => None,
        },
        _ => None,
    }
}

// Whether a field that stands once is given as a list, or stood before.
fn is_given_twice(often: Often, earlier: &[Item], item: &Item) -> bool
    ensures { result ≡ (is_once often && ((out-Item item.now).listed || stands (out-Item item.now).name earlier.now)) }
{
    often != Often::Repeated && (item.listed || stands(item.name.as_str(), earlier))
}

/// Whether one of these fields has this name.
pub fn stands(name: &str, items: &[Item]) -> bool
    ensures { result ≡ stands name.now items.now }
{
    items.iter().any(|item| item.name.as_str() == name)
}

// Whether each value is of a form.
fn are_of(form: Form, values: &[Value]) -> bool
    ensures { result ≡ list_all (is_of form) values.now }
{
    values.iter().all(|value| is_of(form, value))
}

// Whether a value is of a form.
fn is_of(form: Form, value: &Value) -> bool
    ensures { result ≡ is_of form value.now }
{
    match form {
        Form::String => matches!(value, Value::Text(_, _)),
        Form::Enum(words) => enum_number(words, value).is_some(),
        Form::Inner(_) => matches!(value, Value::Message(_, _)),
    }
}

/// Whether each field that a message has to have stands among these.
pub fn is_whole(message: Message, items: &[Item]) -> bool
    ensures { result ≡ is_whole message items.now }
{
    match message {
        Message::FlagDeclarations => stands("package", items),
        Message::Flag => stands("name", items)
            && stands("namespace", items)
            && stands("description", items),
        Message::Metadata | Message::FlagValues => true,
        Message::FlagValue => stands("package", items)
            && stands("name", items)
            && stands("state", items)
            && stands("permission", items),
    }
}
