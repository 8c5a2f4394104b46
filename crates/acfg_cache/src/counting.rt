//! The fields of a flag that count, each tested in its turn.

ghost use Rattle.std.specs.Prelude.{◌≡◌, ◌+◌, ◌<◌, ◌^◌, ◌++◌, ◌∷◌, [], length, IfOk, IfErr, OnOk, All, option_map};
ghost use Rattle.std.specs.List.{AllByRecursion, cons_option};
ghost use Rattle.acfg_wire.specs.Fields.{value_of};
ghost use Rattle.acfg_cache.specs.declared.table.Message.TheVariants.{ParsedFlag};
ghost use Rattle.acfg_cache.specs.Counted.{Within, counting, held, held_as, leaf, leaf_of, leaves, leaves_at};
ghost use Rattle.acfg_cache.specs.Reading.{FirstFails, Holds, IfFault, field_tests, fields_tests, if_held};
ghost use Rattle.acfg_cache.specs.Reading.{leaf_tests, message_tests, within_tests};
ghost use Rattle.acfg_cache.specs.Bodies.{EndsWithin, HeldEndsWithin, behind, counted_read, counting_held};
ghost use Rattle.acfg_cache.specs.Bodies.{held_read, leaf_read, leaves_read, part_read, parts_read};

use crate::fault::CacheFault;
use crate::leaves::Leaf;
use crate::parts::{PlacedField, open};
use crate::table::{Form, Message};
use acfg_wire::FieldValue;
use std::alloc::Global;

/// What a field holds, where its message has its number with its type.
#[derive(Clone, Copy, Debug)]
pub enum Held<'a> {
    Text(&'a [u8]),
    Number(Form, u64),
    Within(Message, &'a [u8]),
}

/// The fields of a flag that count.
#[derive(Debug, Drop)]
pub struct Counted<'a> {
    /// The texts and numbers, in the order of their bytes.
    pub leaves: Vec<Leaf<'a>>,
    /// The texts and numbers of each trace.
    pub traces: Vec<Vec<Leaf<'a>>>,
    /// The texts and numbers of each metadata message.
    pub metadata: Vec<Vec<Leaf<'a>>>,
}

// What a value holds, where it is of its form's type.
fn held_as<'a>(form: Form, value: FieldValue<'a>) -> Option<Held<'a>>
    ensures { option_map held_read result ≡ held_as form (value_of value.entry) }
{
    match form {
        Form::Text => match value {
            FieldValue::Bytes(content) => Some(Held::Text(content)),
            FieldValue::Varint(_) | FieldValue::Eight(_) | FieldValue::Four(_) => None,
        },
        Form::Inner(message) => match value {
            FieldValue::Bytes(content) => Some(Held::Within(message, content)),
            FieldValue::Varint(_) | FieldValue::Eight(_) | FieldValue::Four(_) => None,
        },
        Form::State | Form::Permission | Form::Boolean | Form::Purpose => match value {
            FieldValue::Varint(number) => Some(Held::Number(form, number)),
            FieldValue::Bytes(_) | FieldValue::Eight(_) | FieldValue::Four(_) => None,
        },
    }
}

// What a field holds, where it counts.
fn find_held<'a>(message: Message, field: &PlacedField<'a>) -> Option<Held<'a>>
    ensures { option_map held_read result ≡ held message (part_read field.now) }
{
    match message.form(field.number) {
        Some(form) => held_as(form, field.value),
        None => None,
    }
}

// Tests what a field holds, and gives the text or the number that it is.
fn test_leaf<'a>(number: u64, held: Held<'a>, index: usize) -> Result<Option<Leaf<'a>>, CacheFault>
    ensures leaf { IfOk result (λ leaf. option_map leaf_read leaf ≡ leaf_of number (held_read held.entry)) }
    ensures passed { OnOk result (AllByRecursion Holds (leaf_tests index (held_read held.entry))) }
    ensures err { IfErr result (λ fault. IfFault fault (FirstFails (leaf_tests index (held_read held.entry)))) }
{
    match held {
        Held::Text(content) => match str::from_utf8(content) {
            Ok(text) => Ok(Some(Leaf::Text(number, text))),
            Err(_) => Err(CacheFault::BadText(index)),
        },
        Held::Number(form, n) => {
            if form.may_be(n) {
                Ok(Some(Leaf::Number(number, n)))
            } else {
                Err(CacheFault::BadEnum(index))
            }
        }
        Held::Within(_, _) => Ok(None),
    }
}

// Tests what a field holds, and adds the text or the number that it is.
fn add_leaf<'a>(
    number: u64,
    held: Held<'a>,
    index: usize,
    leaves: &mut Vec<Leaf<'a>>,
) -> Result<(), CacheFault>
    ensures leaves { OnOk result (leaves_read leaves.new.items
        ≡ leaves_read leaves.old.items ++ cons_option (leaf_of number (held_read held.entry)) []) }
    ensures passed { OnOk result (AllByRecursion Holds (leaf_tests index (held_read held.entry))) }
    ensures err { IfErr result (λ fault. IfFault fault (FirstFails (leaf_tests index (held_read held.entry)))) }
{
    match test_leaf(number, held, index)? {
        Some(leaf) => {
            leaves.push(leaf)?;
            Ok(())
        }
        None => Ok(()),
    }
}

// Tests a field of an inner message, and adds the text or the number that it is.
fn add_field<'a>(
    message: Message,
    field: &PlacedField<'a>,
    index: usize,
    leaves: &mut Vec<Leaf<'a>>,
) -> Result<(), CacheFault>
    ensures leaves { OnOk result (leaves_read leaves.new.items
        ≡ leaves_read leaves.old.items ++ cons_option (leaf message (part_read field.now)) []) }
    ensures passed { OnOk result (AllByRecursion Holds
        (if_held (leaf_tests index) (held message (part_read field.now)))) }
    ensures err { IfErr result (λ fault. IfFault fault
        (FirstFails (if_held (leaf_tests index) (held message (part_read field.now))))) }
{
    match find_held(message, field) {
        Some(held) => add_leaf(field.number, held, index, leaves),
        None => Ok(()),
    }
}

// Tests the fields of an inner message, and gives its texts and numbers.
fn read_leaves<'a>(
    alloc: Global,
    message: Message,
    fields: &[PlacedField<'a>],
    index: usize,
) -> Result<Vec<Leaf<'a>>, CacheFault>
    ensures leaves { IfOk result (λ read. leaves_read read.items ≡ leaves message (parts_read fields.now)) }
    ensures passed { OnOk result (AllByRecursion Holds (message_tests index message (parts_read fields.now))) }
    ensures err { IfErr result (λ fault. IfFault fault
        (FirstFails (message_tests index message (parts_read fields.now)))) }
{
    let mut leaves = Vec::with_capacity(alloc, fields.len())?;
    for field in fields {
        add_field(message, field, index, &mut leaves)?;
    }
    Ok(leaves)
}

// Opens an inner message, and tests its fields.
fn read_message<'a>(
    alloc: Global,
    message: Message,
    content: &'a [u8],
    begins: usize,
    index: usize,
) -> Result<Vec<Leaf<'a>>, CacheFault>
    requires { begins + length content.now < 2 ^ 64 }
    ensures leaves { IfOk result (λ read. leaves_read read.items ≡ leaves_at message begins content.now) }
    ensures passed { OnOk result (AllByRecursion Holds (within_tests index message begins content.now)) }
    ensures err { IfErr result (λ fault. IfFault fault (FirstFails (within_tests index message begins content.now))) }
{
    let fields = open(alloc, content, begins)?;
    read_leaves(alloc, message, &fields, index)
}

// Adds an inner message of a flag.
fn add_message<'a>(
    alloc: Global,
    message: Message,
    content: &'a [u8],
    begins: usize,
    index: usize,
    counted: &mut Counted<'a>,
) -> Result<(), CacheFault>
    requires { begins + length content.now < 2 ^ 64 }
    ensures counted { OnOk result (counted_read counted.new
        ≡ behind (counted_read counted.old) (counting_held 0 begins (Within message content.now))) }
    ensures passed { OnOk result (AllByRecursion Holds (within_tests index message begins content.now)) }
    ensures err { IfErr result (λ fault. IfFault fault (FirstFails (within_tests index message begins content.now))) }
{
    let read = read_message(alloc, message, content, begins, index)?;
    match message {
        Message::Tracepoint => counted.traces.push(read)?,
        Message::Metadata => counted.metadata.push(read)?,
        // No field of a flag holds a flag.
        Message::ParsedFlag => {}
    }
    Ok(())
}

// Tests what a field of a flag holds, and adds it.
fn add_held<'a>(
    alloc: Global,
    field: &PlacedField<'a>,
    held: Held<'a>,
    index: usize,
    counted: &mut Counted<'a>,
) -> Result<(), CacheFault>
    requires { HeldEndsWithin field.now.place (held_read held) }
    ensures counted { OnOk result (counted_read counted.new
        ≡ behind (counted_read counted.old) (counting_held field.now.number field.now.place (held_read held.entry))) }
    ensures passed { OnOk result (AllByRecursion Holds (field_tests index field.now.place (held_read held.entry))) }
    ensures err { IfErr result (λ fault. IfFault fault
        (FirstFails (field_tests index field.now.place (held_read held.entry)))) }
{
    match held {
        Held::Text(_) => add_leaf(field.number, held, index, &mut counted.leaves),
        Held::Number(_, _) => add_leaf(field.number, held, index, &mut counted.leaves),
        Held::Within(message, content) => {
            add_message(alloc, message, content, field.place, index, counted)
        }
    }
}

// Tests a field of a flag, and adds it where it counts.
fn count_field<'a>(
    alloc: Global,
    field: &PlacedField<'a>,
    index: usize,
    counted: &mut Counted<'a>,
) -> Result<(), CacheFault>
    requires { EndsWithin field.now }
    ensures counted { OnOk result (counted_read counted.new
        ≡ behind (counted_read counted.old) (counting (part_read field.now ∷ []))) }
    ensures passed { OnOk result (AllByRecursion Holds
        (if_held (field_tests index field.now.place) (held ParsedFlag (part_read field.now)))) }
    ensures err { IfErr result (λ fault. IfFault fault
        (FirstFails (if_held (field_tests index field.now.place) (held ParsedFlag (part_read field.now))))) }
{
    match find_held(Message::ParsedFlag, field) {
        Some(held) => add_held(alloc, field, held, index, counted),
        None => Ok(()),
    }
}

/// Tests the fields of a flag in the order of their bytes, and gives those that count.
pub fn count_fields<'a>(
    alloc: Global,
    fields: &[PlacedField<'a>],
    index: usize,
) -> Result<Counted<'a>, CacheFault>
    requires { All EndsWithin fields.now }
    ensures counted { IfOk result (λ counted. counted_read counted ≡ counting (parts_read fields.now)) }
    ensures passed { OnOk result (AllByRecursion Holds (fields_tests index (parts_read fields.now))) }
    ensures err { IfErr result (λ fault. IfFault fault (FirstFails (fields_tests index (parts_read fields.now)))) }
{
    let mut counted = Counted {
        leaves: Vec::with_capacity(alloc, fields.len())?,
        traces: Vec::new(alloc),
        metadata: Vec::new(alloc),
    };
    for field in fields {
        count_field(alloc, field, index, &mut counted)?;
    }
    Ok(counted)
}
