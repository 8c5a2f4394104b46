//! Fields at the front of bytes: what is read there, and what is behind it.

ghost use Rattle.std.specs.Prelude.{◌≡◌, ◌^◌, ◌<◌, ◌++◌, ⊤, IfOk, OnOk, length, option_map};
ghost use Rattle.std.specs.Option.{SomeIff};
ghost use Rattle.acfg_base.specs.Names.{IsContainer};
ghost use Rattle.acfg_model.specs.State.{IsDigest};
ghost use Rattle.acfg_views.specs.Fields.{number, string};
ghost use Rattle.acfg_store.specs.Names.{slot_number};
ghost use Rattle.acfg_store.specs.Records.{bit};
ghost use Rattle.acfg_store.specs.Taken.{Takes};

use crate::names::Slot;
use acfg_base::{ContainerName, OutOfMemory};
use byteorder::{ByteOrder, LittleEndian};
use std::alloc::Global;
use std::str;

/// A number of four bytes.
pub(crate) fn take_u32(bytes: &[u8]) -> Option<(u32, &[u8])>
    ensures { Takes (number 4) (λ n. n < 2 ^ 32) bytes.now (option_map (λ t. (t.0, t.1.now)) result) }
{
    if bytes.len() < 4 {
        return None;
    }
    let (front, rest) = bytes.split_at(4);
    Some((LittleEndian::read_u32(front), rest))
}

/// A number of one byte.
pub(crate) fn take_u8(bytes: &[u8]) -> Option<(u8, &[u8])>
    ensures { Takes (number 1) (λ n. n < 2 ^ 8) bytes.now (option_map (λ t. (t.0, t.1.now)) result) }
{
    if bytes.is_empty() {
        return None;
    }
    let (front, rest) = bytes.split_at(1);
    Some((front[0], rest))
}

/// A byte that is 0 or 1.
pub(crate) fn take_bit(bytes: &[u8]) -> Option<(bool, &[u8])>
    ensures { Takes (λ value. number 1 (bit value)) (λ _. ⊤) bytes.now (option_map (λ t. (t.0, t.1.now)) result) }
{
    match take_u8(bytes) {
        None => None,
        Some((number, rest)) => {
            if number == 0 {
                Some((false, rest))
            } else if number == 1 {
                Some((true, rest))
            } else {
                None
            }
        }
    }
}

/// A slot, as its number in one byte.
pub(crate) fn take_slot(bytes: &[u8]) -> Option<(Slot, &[u8])>
    ensures { Takes (λ slot. number 1 (slot_number slot)) (λ _. ⊤) bytes.now (option_map (λ t. (t.0, t.1.now)) result) }
{
    match take_bit(bytes) {
        None => None,
        Some((one, rest)) => {
            let slot = if one { Slot::One } else { Slot::Zero };
            Some((slot, rest))
        }
    }
}

/// A digest.
pub(crate) fn take_digest(bytes: &[u8]) -> Option<([u8; 32], &[u8])>
    ensures { Takes (λ digest. digest) IsDigest bytes.now (option_map (λ t. (t.0, t.1.now)) result) }
{
    if bytes.len() < 32 {
        return None;
    }
    let (front, rest) = bytes.split_at(32);
    let mut digest = [0; 32];
    digest.copy_from_slice(front);
    Some((digest, rest))
}

/// The name of a container: its length in four bytes, and its bytes.
pub(crate) fn take_name(
    alloc: Global,
    bytes: &[u8],
) -> Result<Option<(ContainerName, &[u8])>, OutOfMemory>
    ensures { IfOk result (λ taken. Takes string IsContainer bytes.now (option_map (λ t. (t.0, t.1.now)) taken)) }
{
    match take_u32(bytes) {
        None => Ok(None),
        Some((len, rest)) => {
            let name = name_behind(alloc, len, rest)?;
            Ok(name)
        }
    }
}

// A name of so many bytes.
fn name_behind(
    alloc: Global,
    len: u32,
    bytes: &[u8],
) -> Result<Option<(ContainerName, &[u8])>, OutOfMemory>
    ensures { IfOk result (λ taken. Takes (λ text. text) (λ text. IsContainer text × (length text ≡ len)) bytes.now
        (option_map (λ t. (t.0, t.1.now)) taken)) }
{
    let len = len as usize;
    if bytes.len() < len {
        return Ok(None);
    }
    let (front, rest) = bytes.split_at(len);
    match name_of(alloc, front)? {
        Some(name) => Ok(Some((name, rest))),
        None => Ok(None),
    }
}

// The container's name that bytes are, where they are one.
fn name_of(alloc: Global, bytes: &[u8]) -> Result<Option<ContainerName>, OutOfMemory>
    ensures { IfOk result (λ name. SomeIff name (IsContainer bytes.now) bytes.now) }
{
    match str::from_utf8(bytes) {
        Ok(text) => ContainerName::parse(alloc, text),
        Err(_) => Ok(None),
    }
}

/// The number of a slot.
pub(crate) fn slot_byte(slot: Slot) -> u8
    ensures { result ≡ slot_number slot }
{
    match slot {
        Slot::Zero => 0,
        Slot::One => 1,
    }
}

/// A bit as a number.
pub(crate) fn bit_byte(value: bool) -> u8
    ensures { result ≡ bit value }
{
    if value { 1 } else { 0 }
}

/// Puts bytes behind the others.
pub(crate) fn put_bytes(out: &mut Vec<u8>, bytes: &[u8]) -> Result<(), OutOfMemory>
    ensures { OnOk result (out.new.items ≡ out.old.items ++ bytes.now) }
{
    out.extend_from_slice(bytes)?;
    Ok(())
}

/// Puts a number of four bytes behind the others.
pub(crate) fn put_u32(out: &mut Vec<u8>, value: u32) -> Result<(), OutOfMemory>
    ensures { OnOk result (out.new.items ≡ out.old.items ++ number 4 value) }
{
    let mut bytes = [0; 4];
    LittleEndian::write_u32(&mut bytes, value);
    put_bytes(out, bytes.as_slice())?;
    Ok(())
}

/// Puts a number of one byte behind the others.
#[tactic(auto, using(crate::proofs::Fronts::one_number))]
pub(crate) fn put_u8(out: &mut Vec<u8>, value: u8) -> Result<(), OutOfMemory>
    ensures { OnOk result (out.new.items ≡ out.old.items ++ number 1 value) }
{
    out.push(value)?;
    Ok(())
}

/// Puts a text behind the bytes, with its length before it.
pub(crate) fn put_string(out: &mut Vec<u8>, text: &[u8]) -> Result<(), OutOfMemory>
    requires { length text.now < 2 ^ 32 }
    ensures { OnOk result (out.new.items ≡ out.old.items ++ string text.now) }
{
    put_u32(out, text.len() as u32)?;
    put_bytes(out, text)?;
    Ok(())
}
