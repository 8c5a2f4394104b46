//! A cache read as its flags.

ghost use Rattle.std.specs.Prelude.{◌≡◌, ◌+◌, ◌<◌, ◌^◌, ◌++◌, ◌∷◌, [], None, Some, length, map, filter_map};
ghost use Rattle.std.specs.Prelude.{All, IfOk, IfErr, OnOk, option_map};
ghost use Rattle.std.specs.List.{AllByRecursion, cons_option, last_or};
ghost use Rattle.acfg_decls.specs.Flags.{IsLawful};
ghost use Rattle.acfg_cache.specs.Reading.{FirstFails, FirstFault, Holds, IfFault, Reads};
ghost use Rattle.acfg_cache.specs.Reading.{flag_at, flag_in, flag_tests, flags_tests, order_tests};
ghost use Rattle.acfg_cache.specs.Bodies.{EndsWithin, Rise, message_at, part_read, parts_read};

use crate::conditions::make_flag;
use crate::counting::count_fields;
use crate::fault::CacheFault;
use crate::parts::{PlacedField, open};
use acfg_decls::{Flag, Flags};
use acfg_wire::FieldValue;
use std::alloc::Global;
use std::cmp::Ordering;

/// Reads a cache as its flags.
///
/// Fields stand in any order. One whose number the table has with another type, and one whose number it lacks, is
/// skipped. Of a singular field the last value counts; metadata messages of one flag are read as one, with their
/// fields joined in order. Each text that is kept is copied once.
///
/// # Errors
/// The first fault: of the whole cache as fields, and then of one flag after another, each as `CacheFault` lists them.
pub fn decode(alloc: Global, bytes: &[u8]) -> Result<Flags, CacheFault>
    ensures ok { IfOk result (Reads bytes.now) }
    ensures err { IfErr result (λ fault. IfFault fault (FirstFault bytes.now)) }
{
    let fields = open(alloc, bytes, 0)?;
    let flags = read_flags(alloc, &fields)?;
    Ok(Flags::from_sorted(flags))
}

// Reads the flags among the fields of a cache.
fn read_flags(alloc: Global, fields: &[PlacedField<'_>]) -> Result<Vec<Flag>, CacheFault>
    requires { All EndsWithin fields.now }
    ensures flags { IfOk result (λ flags. flags.items ≡ map flag_in (filter_map flag_at (parts_read fields.now))) }
    ensures rise { IfOk result (λ flags. Rise flags.items) }
    ensures lawful { IfOk result (λ flags. All IsLawful flags.items) }
    ensures passed { OnOk result (AllByRecursion Holds (flags_tests [] (filter_map flag_at (parts_read fields.now)))) }
    ensures err { IfErr result (λ fault. IfFault fault
        (FirstFails (flags_tests [] (filter_map flag_at (parts_read fields.now))))) }
{
    let mut flags = Vec::new(alloc);
    for field in fields {
        add_field(alloc, field, &mut flags)?;
    }
    Ok(flags)
}

// Adds the flag that a field of a cache holds, where it holds one.
fn add_field(
    alloc: Global,
    field: &PlacedField<'_>,
    flags: &mut Vec<Flag>,
) -> Result<(), CacheFault>
    requires { EndsWithin field.now }
    ensures flags { OnOk result (flags.new.items
        ≡ flags.old.items ++ map flag_in (cons_option (flag_at (part_read field.now)) [])) }
    ensures rise { OnOk result (Rise flags.old.items → Rise flags.new.items) }
    ensures lawful { OnOk result (All IsLawful flags.old.items → All IsLawful flags.new.items) }
    ensures passed { OnOk result (AllByRecursion Holds
        (flags_tests flags.old.items (cons_option (flag_at (part_read field.now)) []))) }
    ensures err { IfErr result (λ fault. IfFault fault
        (FirstFails (flags_tests flags.old.items (cons_option (flag_at (part_read field.now)) [])))) }
{
    match flag_content(field) {
        Some(content) => add_flag(alloc, content, field.place, flags),
        None => Ok(()),
    }
}

// Reads a flag whose bytes begin at this place, and adds it behind those that are there.
fn add_flag(
    alloc: Global,
    content: &[u8],
    begins: usize,
    flags: &mut Vec<Flag>,
) -> Result<(), CacheFault>
    requires { begins + length content.now < 2 ^ 64 }
    ensures flags { OnOk result (flags.new.items ≡ flags.old.items ++ flag_in (begins, content.now) ∷ []) }
    ensures rise { OnOk result (Rise flags.old.items → Rise flags.new.items) }
    ensures lawful { OnOk result (All IsLawful flags.old.items → All IsLawful flags.new.items) }
    ensures passed { OnOk result (AllByRecursion Holds (flags_tests flags.old.items ((begins, content.now) ∷ []))) }
    ensures err { IfErr result (λ fault. IfFault fault
        (FirstFails (flags_tests flags.old.items ((begins, content.now) ∷ [])))) }
{
    let flag = read_flag(alloc, content, begins, flags.len(), flags.last())?;
    test_order(flags, &flag)?;
    flags.push(flag)?;
    Ok(())
}

// The bytes of a flag, where a field of the cache holds one.
fn flag_content<'a>(field: &PlacedField<'a>) -> Option<&'a [u8]>
    ensures { option_map (message_at field.now.place) result ≡ flag_at (part_read field.now) }
{
    match field.number {
        1 => match field.value {
            FieldValue::Bytes(content) => Some(content),
            FieldValue::Varint(_) | FieldValue::Eight(_) | FieldValue::Four(_) => None,
        },
        _ => None,
    }
}

// Reads the flag at this position of the cache, whose bytes begin at this place, behind the flag that is the last so
// far.
fn read_flag(
    alloc: Global,
    content: &[u8],
    begins: usize,
    index: usize,
    last: Option<&Flag>,
) -> Result<Flag, CacheFault>
    requires { begins + length content.now < 2 ^ 64 }
    ensures flag { IfOk result (λ flag. flag ≡ flag_in (begins, content.now)) }
    ensures lawful { IfOk result IsLawful }
    ensures passed { OnOk result (AllByRecursion Holds (flag_tests index (begins, content.now))) }
    ensures err { IfErr result (λ fault. IfFault fault (FirstFails (flag_tests index (begins, content.now)))) }
{
    let fields = open(alloc, content, begins)?;
    let counted = count_fields(alloc, &fields, index)?;
    make_flag(alloc, &counted, index, last)
}

// Tests that a flag stands behind those before it.
fn test_order(flags: &[Flag], flag: &Flag) -> Result<(), CacheFault>
    ensures passed { OnOk result (AllByRecursion Holds
        (order_tests (length flags.now) (last_or None flags.now) flag.now)) }
    ensures err { IfErr result (λ fault. IfFault fault
        (FirstFails (order_tests (length flags.now) (last_or None flags.now) flag.now))) }
{
    match flags.last() {
        Some(before) => test_behind(flags.len(), before, flag),
        None => Ok(()),
    }
}

// Tests that the flag at this position stands behind the one before it.
fn test_behind(index: usize, before: &Flag, flag: &Flag) -> Result<(), CacheFault>
    ensures passed { OnOk result (AllByRecursion Holds (order_tests index (Some before.now) flag.now)) }
    ensures err { IfErr result (λ fault. IfFault fault (FirstFails (order_tests index (Some before.now) flag.now))) }
{
    match flag.compare(before) {
        Ordering::Less => Err(CacheFault::Unsorted(index)),
        Ordering::Equal => Err(CacheFault::Duplicate(index)),
        Ordering::Greater => Ok(()),
    }
}
