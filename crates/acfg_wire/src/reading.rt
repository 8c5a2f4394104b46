//! Bytes read as a list of fields.

ghost use Rattle.std.specs.Prelude.{◌≡◌, ◌⊎◌, ℕ, List, IfOk, IfErr, MatchResult, IsErrOf, Ok, Err};
ghost use Rattle.acfg_wire.specs.Fields.{WireField, IsFields, BeginAt, ValuesLieIn, value_of, field_of, fields_of};
ghost use Rattle.acfg_wire.specs.Fields.{places_of};
ghost use Rattle.acfg_wire.specs.Outcome.{IsOutcome};
ghost use Rattle.acfg_wire.specs.Laid.{laid, laid_of};
ghost use Rattle.acfg_wire.specs.Reading.{ReadsAs, varint_at, front_at, value_at, field_at};

use crate::fault::{Fault, WireFault};
use crate::field::{BYTES, EIGHT, FOUR, Field, FieldValue, VARINT};
use std::alloc::Global;

/// The place of a varint's tenth byte, which holds the last of 64 bits.
const TENTH: usize = 9;

/// For how many fields a list has room from the start, where so many could stand in its bytes.
const FEW: usize = 16;

/// Reads the varint at the front, and gives the bytes behind it. Most have one byte.
#[tactic(auto, unfolding(crate::specs::Reading::varint_at))]
fn varint_of(bytes: &[u8]) -> Result<(u64, &[u8]), Fault>
    ensures { ReadsAs (λ read. (read.0, read.1.now)) result (varint_at bytes.now) }
{
    match bytes {
        [byte, rest @ ..] => {
            if *byte < 0x80 {
                Ok((u64::from(*byte), rest))
            } else {
                long_varint_of(bytes)
            }
        }
        [] => Err(Fault::Truncated),
    }
}

/// The same for a varint of any length.
fn long_varint_of(bytes: &[u8]) -> Result<(u64, &[u8]), Fault>
    ensures { ReadsAs (λ read. (read.0, read.1.now)) result (varint_at bytes.now) }
{
    let mut value = 0;
    for (i, byte) in bytes.iter().enumerate() {
        let byte = *byte;
        if i == TENTH && byte > 1 {
            return Err(Fault::LongVarint);
        }
        value |= u64::from(byte & 0x7f) << (7 * i);
        if byte < 0x80 {
            return Ok((value, &bytes[i + 1..]));
        }
    }
    Err(Fault::Truncated)
}

/// Takes so many bytes from the front, and gives those behind them.
fn front_of(bytes: &[u8], count: u64) -> Result<(&[u8], &[u8]), Fault>
    ensures { ReadsAs (λ read. (read.0.now, read.1.now)) result (front_at count bytes.now) }
{
    bytes
        .split_at_checked(count as usize)
        .ok_or(Fault::Truncated)
}

/// Reads the value of a field of this wire type.
#[tactic(auto, unfolding(crate::specs::Reading::value_at))]
fn value_of_type(wire_type: u64, bytes: &[u8]) -> Result<(FieldValue<'_>, &[u8]), Fault>
    ensures { ReadsAs (λ read. (value_of read.0, read.1.now)) result (value_at wire_type bytes.now) }
{
    match wire_type {
        VARINT => {
            let (value, rest) = varint_of(bytes)?;
            Ok((FieldValue::Varint(value), rest))
        }
        EIGHT => {
            let (content, rest) = front_of(bytes, 8)?;
            Ok((FieldValue::Eight(content), rest))
        }
        BYTES => {
            let (count, rest) = varint_of(bytes)?;
            let (content, rest) = front_of(rest, count)?;
            Ok((FieldValue::Bytes(content), rest))
        }
        FOUR => {
            let (content, rest) = front_of(bytes, 4)?;
            Ok((FieldValue::Four(content), rest))
        }
        _ => Err(Fault::BadType),
    }
}

/// Reads the field at the front, whose key is at `place`, and gives the bytes behind it.
#[tactic(auto, unfolding(crate::specs::Reading::field_at))]
fn field_at_front(bytes: &[u8], place: usize) -> Result<(Field<'_>, &[u8]), Fault>
    ensures field { ReadsAs (λ read. (field_of read.0, read.1.now)) result (field_at bytes.now) }
    ensures place { IfOk result (λ read. read.0.place ≡ place) }
{
    let (key, rest) = varint_of(bytes)?;
    let number = key / 8;
    if number == 0 {
        return Err(Fault::BadType);
    }
    let (value, rest) = value_of_type(key % 8, rest)?;
    Ok((
        Field {
            number,
            place,
            value,
        },
        rest,
    ))
}

/// Reads all of the bytes as fields, in their order.
///
/// Values are not copied: each slice is that part of `bytes`. Any spelling of a varint of up to
/// ten bytes is read, and any number from 1 up. The list has room for a few fields from the start,
/// and takes more in doubling steps.
///
/// # Errors
///
/// The first field at fault is told by the place of its key (`Truncated`, `LongVarint`,
/// `BadType`), and `OutOfMemory` where there is no memory for the list.
pub fn read_fields(alloc: Global, bytes: &[u8]) -> Result<Vec<Field<'_>>, WireFault>
    // What is read is what the bytes are.
    ensures fields { IfOk result (λ read. IsFields bytes.now (fields_of read.items)) }
    ensures places { IfOk result (λ read. BeginAt bytes.now (fields_of read.items) (places_of read.items)) }
    ensures values { IfOk result (λ read. ValuesLieIn bytes.now read.items) }
    // Bytes that are fields are read, unless memory runs out.
    ensures tells_fields { (fields : List WireField) → IsFields bytes.now fields
        → MatchResult result (λ read. fields_of read.items ≡ fields) (λ fault. fault ≡ WireFault.OutOfMemory) }

    // A fault that is told is the first one.
    ensures fault { IfErr result (λ fault. (fault ≡ WireFault.OutOfMemory) ⊎ IsOutcome bytes.now (Err fault)) }
    // The first fault is told, unless memory runs out.
    ensures tells_fault { (fault : WireFault) → IsOutcome bytes.now (Err fault)
        → IsErrOf result fault ⊎ IsErrOf result WireFault.OutOfMemory }

    // The same as one function of the bytes.
    ensures laid { MatchResult result (λ read. laid bytes.now ≡ Ok (laid_of read.items))
        (λ fault. (fault ≡ WireFault.OutOfMemory) ⊎ (laid bytes.now ≡ Err fault)) }
{
    let mut fields = Vec::with_capacity(alloc, FEW.min(bytes.len() / 2))?;
    let mut rest = bytes;
    while !rest.is_empty() {
        let place = bytes.len() - rest.len();
        match field_at_front(rest, place) {
            Ok((field, behind)) => {
                fields.push(field)?;
                rest = behind;
            }
            Err(fault) => return Err(fault.at(place)),
        }
    }
    Ok(fields)
}
