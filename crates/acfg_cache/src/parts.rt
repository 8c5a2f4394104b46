//! The fields of a message, each with the place in the whole cache at which its content begins.

ghost use Rattle.std.specs.Prelude.{◌≡◌, ◌+◌, ◌<◌, ◌^◌, Ok, Some, length, All, IfOk, IfErr};
ghost use Rattle.std.specs.Prelude.{slice_get, slice_index_or, slice_set};
ghost use Rattle.acfg_wire.specs.Fields.{BeginAt, ValuesLieIn, content_of, fields_of, places_of, value_of};
ghost use Rattle.acfg_wire.specs.Laid.{laid_of};
ghost use Rattle.acfg_cache.specs.Parts.{opened, parts_in};
ghost use Rattle.acfg_cache.specs.Reading.{IfFault};
ghost use Rattle.acfg_cache.specs.Bodies.{EndsWithin, IsBehind, ReadFails, fault_moved, parts_read};

use crate::fault::CacheFault;
use acfg_wire::{Field, FieldValue, WireFault, read_fields};
use std::alloc::Global;

/// A field of a message. Its place is where its content begins in the whole cache, and not where its key does.
pub type PlacedField<'a> = Field<'a>;

/// The fields of a message that begins at this place of the whole cache.
pub fn open(alloc: Global, bytes: &[u8], at: usize) -> Result<Vec<PlacedField<'_>>, CacheFault>
    requires { at + length bytes.now < 2 ^ 64 }
    ensures ok { IfOk result (λ parts. opened at bytes.now ≡ Ok (parts_read parts.items)) }
    ensures within { IfOk result (λ parts. All EndsWithin parts.items) }
    ensures err { IfErr result (λ fault. IfFault fault (ReadFails (opened at bytes.now))) }
{
    match read_fields(alloc, bytes) {
        Ok(mut fields) => {
            place_fields(bytes, &mut fields, at);
            Ok(fields)
        }
        Err(fault) => Err(move_fault(fault, at, bytes.len())),
    }
}

// Tells the fields of a message their places in the cache.
fn place_fields(bytes: &[u8], fields: &mut [Field<'_>], at: usize)
    requires room { at + length bytes.now < 2 ^ 64 }
    requires begin { BeginAt bytes.now (fields_of fields.old) (places_of fields.old) }
    requires lie { ValuesLieIn bytes.now fields.old }
    ensures parts { parts_read fields.new ≡ parts_in at (length bytes.now) (laid_of fields.old) }
    ensures within { All EndsWithin fields.new }
    ensures long { length fields.new ≡ length fields.old }
{
    for i in 0..fields.len() {
        let field = field_at(fields, i);
        let len = content_len(field.value);
        let placed = Field {
            number: field.number,
            place: at + (end_at(fields, i, bytes.len()) - len),
            value: field.value,
        };
        put(fields, i, placed);
    }
}

fn put<'a>(fields: &mut [Field<'a>], i: usize, field: Field<'a>)
    requires { i < length fields.old }
    ensures { fields.new ≡ slice_set fields.old i field.entry }
{
    fields[i] = field;
}

fn field_at<'a>(fields: &[Field<'a>], i: usize) -> Field<'a>
    requires { i < length fields.now }
    ensures { slice_get fields.now i ≡ Some result }
{
    fields[i]
}

// Where a field ends, in a message of so many bytes.
fn end_at(fields: &[Field<'_>], i: usize, total: usize) -> usize
    requires { i < length fields.now }
    ensures { result ≡ slice_index_or (places_of fields.now) (i + 1) total }
{
    match fields.get(i + 1) {
        Some(next) => next.place,
        None => total,
    }
}

// How many bytes of its own a value has.
fn content_len(value: FieldValue<'_>) -> usize
    ensures { result ≡ length (content_of (value_of value.entry)) }
{
    match value {
        FieldValue::Varint(_) => 0,
        FieldValue::Eight(content) => content.len(),
        FieldValue::Bytes(content) => content.len(),
        FieldValue::Four(content) => content.len(),
    }
}

// A wire fault of a message of so many bytes that begins at this place, as one of the whole cache.
fn move_fault(fault: WireFault, at: usize, len: usize) -> CacheFault
    requires room { at + len < 2 ^ 64 }
    requires within { IsBehind fault len }
    ensures { result ≡ fault_moved at fault }
{
    match fault {
        WireFault::Truncated(place) => CacheFault::Wire(WireFault::Truncated(at + place)),
        WireFault::LongVarint(place) => CacheFault::Wire(WireFault::LongVarint(at + place)),
        WireFault::BadType(place) => CacheFault::Wire(WireFault::BadType(at + place)),
        WireFault::OutOfMemory => CacheFault::OutOfMemory,
    }
}
