//! One field at a time, written with shortest varints.

ghost use Rattle.std.specs.Prelude.{◌≡◌, ◌+◌, ◌<◌, ◌≤◌, ◌++◌, vec_len, vec_capacity, OnOk, OnErr};
ghost use Rattle.acfg_wire.specs.Varint.{shortest};
ghost use Rattle.acfg_wire.specs.Fields.{IsFieldNumber, varint_field, bytes_field};

use crate::fault::OutOfMemory;
use crate::field::{BYTES, VARINT};
use std::alloc::Global;

/// The most bytes of a varint of 64 bits.
const MAX_VARINT: usize = 10;

/// Appends the shortest varint of a number, where there is room for it.
fn push_varint(out: &mut Vec<u8>, value: u64)
    requires { vec_len out.old + MAX_VARINT ≤ vec_capacity out.old }
    ensures appends { out.new.items ≡ out.old.items ++ shortest value }
    ensures short { vec_len out.new ≤ vec_len out.old + MAX_VARINT }
    ensures capacity { vec_capacity out.old ≤ vec_capacity out.new }
{
    let mut rest = value;
    while rest >= 0x80 {
        out.push((rest % 0x80) as u8 + 0x80).unwrap();
        rest /= 0x80;
    }
    out.push(rest as u8).unwrap();
}

/// Appends one field of type 0, with shortest varints.
///
/// `out` takes the room for it from its own allocator.
///
/// # Errors
///
/// `OutOfMemory` where there is no room; `out` is then as it was.
pub fn put_varint(
    _alloc: Global,
    out: &mut Vec<u8>,
    number: u64,
    value: u64,
) -> Result<(), OutOfMemory>
    requires { IsFieldNumber number }
    ensures appends { OnOk result (out.new.items ≡ out.old.items ++ varint_field number value) }
    ensures err { OnErr result (out.new.items ≡ out.old.items) }
{
    out.reserve(2 * MAX_VARINT)?;
    push_varint(out, number * 8 + VARINT);
    push_varint(out, value);
    Ok(())
}

/// Appends one field of type 2: the length of `value`, and its bytes.
///
/// `out` takes the room for it from its own allocator, once.
///
/// # Errors
///
/// `OutOfMemory` where there is no room; `out` is then as it was.
pub fn put_bytes(
    _alloc: Global,
    out: &mut Vec<u8>,
    number: u64,
    value: &[u8],
) -> Result<(), OutOfMemory>
    requires { IsFieldNumber number }
    ensures appends { OnOk result (out.new.items ≡ out.old.items ++ bytes_field number value.now) }
    ensures err { OnErr result (out.new.items ≡ out.old.items) }
{
    out.reserve(2 * MAX_VARINT + value.len())?;
    push_varint(out, number * 8 + BYTES);
    push_varint(out, value.len() as u64);
    out.extend_from_slice(value).unwrap();
    Ok(())
}
