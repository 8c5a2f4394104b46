//! Flags written as a cache.

ghost use Rattle.std.specs.Prelude.{◌≡◌, ◌++◌, ◌≤◌, All, IfOk, IsUtf8, OnOk};
ghost use Rattle.std.specs.List.{flat_map};
ghost use Rattle.acfg_wire.specs.Fields.{bytes_field, varint_field};
ghost use Rattle.acfg_cache.specs.Writing.{bool_number, cache, flag_bytes, last_fields, metadata_field, named_fields};
ghost use Rattle.acfg_cache.specs.Writing.{permission_number, point_bytes, purpose_number, state_fields, state_number};
ghost use Rattle.acfg_cache.specs.Reading.{Reads};
ghost use Rattle.acfg_cache.specs.Texts.{HasEnd, HasMiddle, HasNames, HasTexts, HaveSources};

use acfg_base::{OutOfMemory, Text};
use acfg_decls::{Flag, Flags, Point, Purpose};
use acfg_wire::{put_bytes, put_varint};
use std::alloc::Global;

/// Writes flags as a cache: fields in the order of their numbers, with shortest varints. It is read as these flags.
///
/// # Errors
/// `OutOfMemory` where memory was refused.
pub fn encode(alloc: Global, flags: &Flags) -> Result<Vec<u8>, OutOfMemory>
    ensures cache { IfOk result (λ bytes. bytes.items ≡ cache flags.now) }
    ensures again { IfOk result (λ bytes. Reads bytes.items flags.now) }
{
    let mut out = Vec::new(alloc);
    let mut message = Vec::new(alloc);
    for flag in flags.list() {
        message.clear();
        put_flag(alloc, &mut message, flag)?;
        put_content(alloc, &mut out, 1, &message)?;
    }
    Ok(out)
}

// Appends the fields of a flag.
fn put_flag(alloc: Global, out: &mut Vec<u8>, flag: &Flag) -> Result<(), OutOfMemory>
    ensures bytes { OnOk result (out.new.items ≡ out.old.items ++ flag_bytes flag.now) }
    ensures texts { OnOk result (HasTexts flag.now) }
{
    put_names(alloc, out, flag)?;
    put_states(alloc, out, flag)?;
    put_last(alloc, out, flag)
}

// Appends the fields 1 to 4.
fn put_names(alloc: Global, out: &mut Vec<u8>, flag: &Flag) -> Result<(), OutOfMemory>
    ensures bytes { OnOk result (out.new.items ≡ out.old.items ++ named_fields flag.now) }
    ensures texts { OnOk result (HasNames flag.now) }
{
    put_content(alloc, out, 1, flag.package.as_str().as_bytes())?;
    put_content(alloc, out, 2, flag.name.as_str().as_bytes())?;
    put_content(alloc, out, 3, flag.namespace.as_str().as_bytes())?;
    put_content(alloc, out, 4, flag.description.as_str().as_bytes())
}

// Appends the fields 5 to 8.
fn put_states(alloc: Global, out: &mut Vec<u8>, flag: &Flag) -> Result<(), OutOfMemory>
    ensures bytes { OnOk result (out.new.items ≡ out.old.items ++ state_fields flag.now) }
    ensures texts { OnOk result (HasMiddle flag.now) }
{
    put_bugs(alloc, out, flag.bugs.as_slice())?;
    put_number(alloc, out, 6, state_number(flag.enabled))?;
    put_number(alloc, out, 7, permission_number(flag.writable))?;
    put_trace(alloc, out, flag.trace.as_slice())
}

// Appends the fields 9 to 12.
fn put_last(alloc: Global, out: &mut Vec<u8>, flag: &Flag) -> Result<(), OutOfMemory>
    ensures bytes { OnOk result (out.new.items ≡ out.old.items ++ last_fields flag.now) }
    ensures texts { OnOk result (HasEnd flag.now) }
{
    put_number(alloc, out, 9, bool_number(flag.fixed))?;
    put_number(alloc, out, 10, bool_number(flag.exported))?;
    put_content(alloc, out, 11, flag.container.as_str().as_bytes())?;
    put_metadata(alloc, out, flag.purpose)
}

fn put_bugs(alloc: Global, out: &mut Vec<u8>, bugs: &[Text]) -> Result<(), OutOfMemory>
    ensures bytes { OnOk result (out.new.items ≡ out.old.items ++ flat_map (λ bug. bytes_field 5 bug) bugs.now) }
    ensures texts { OnOk result (All IsUtf8 bugs.now) }
{
    for bug in bugs {
        put_content(alloc, out, 5, bug.as_str().as_bytes())?;
    }
    Ok(())
}

fn put_trace(alloc: Global, out: &mut Vec<u8>, trace: &[Point]) -> Result<(), OutOfMemory>
    ensures bytes { OnOk result (out.new.items
        ≡ out.old.items ++ flat_map (λ point. bytes_field 8 (point_bytes point)) trace.now) }
    ensures texts { OnOk result (HaveSources trace.now) }
{
    let mut message = Vec::new(alloc);
    for point in trace {
        message.clear();
        put_point(alloc, &mut message, point)?;
        put_content(alloc, out, 8, &message)?;
    }
    Ok(())
}

fn put_point(alloc: Global, out: &mut Vec<u8>, point: &Point) -> Result<(), OutOfMemory>
    ensures bytes { OnOk result (out.new.items ≡ out.old.items ++ point_bytes point.now) }
    ensures texts { OnOk result (IsUtf8 point.now.source) }
{
    put_content(alloc, out, 1, point.source.as_str().as_bytes())?;
    put_number(alloc, out, 2, state_number(point.enabled))?;
    put_number(alloc, out, 3, permission_number(point.writable))
}

fn put_metadata(
    alloc: Global,
    out: &mut Vec<u8>,
    purpose: Option<Purpose>,
) -> Result<(), OutOfMemory>
    ensures { OnOk result (out.new.items ≡ out.old.items ++ metadata_field purpose) }
{
    match purpose {
        Some(purpose) => {
            let mut message = Vec::new(alloc);
            put_number(alloc, &mut message, 1, purpose_number(purpose))?;
            put_content(alloc, out, 12, &message)
        }
        None => Ok(()),
    }
}

fn state_number(enabled: bool) -> u64
    ensures { result ≡ state_number enabled }
{
    if enabled { 1 } else { 2 }
}

fn permission_number(writable: bool) -> u64
    ensures { result ≡ permission_number writable }
{
    if writable { 2 } else { 1 }
}

fn bool_number(value: bool) -> u64
    ensures { result ≡ bool_number value }
{
    if value { 1 } else { 0 }
}

fn purpose_number(purpose: Purpose) -> u64
    ensures { result ≡ purpose_number purpose }
{
    match purpose {
        Purpose::Unspecified => 0,
        Purpose::Feature => 1,
        Purpose::Bugfix => 2,
    }
}

// Appends a field of bytes.
fn put_content(
    alloc: Global,
    out: &mut Vec<u8>,
    number: u64,
    content: &[u8],
) -> Result<(), OutOfMemory>
    requires least { 1 ≤ number }
    requires most { number ≤ 12 }
    ensures { OnOk result (out.new.items ≡ out.old.items ++ bytes_field number content.now) }
{
    match put_bytes(alloc, out, number, content) {
        Ok(()) => Ok(()),
        Err(_) => Err(OutOfMemory),
    }
}

// Appends a field of a number.
fn put_number(alloc: Global, out: &mut Vec<u8>, number: u64, value: u64) -> Result<(), OutOfMemory>
    requires least { 1 ≤ number }
    requires most { number ≤ 12 }
    ensures { OnOk result (out.new.items ≡ out.old.items ++ varint_field number value) }
{
    match put_varint(alloc, out, number, value) {
        Ok(()) => Ok(()),
        Err(_) => Err(OutOfMemory),
    }
}
