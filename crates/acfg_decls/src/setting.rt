//! The values that files set, applied to the declared flags.

ghost use Rattle.std.specs.Prelude.{◌≡◌, ◌&&◌, ◌∷◌, ◌++◌, [], List, ℕ, map, IfOk, IfErr, OnOk, All};
ghost use Rattle.std.specs.List.{AllByRecursion};
ghost use Rattle.acfg_decls.specs.Compile.{FirstFails, Holds, IfAt, file_tests, flag_of, sourced, value_tests};
ghost use Rattle.acfg_decls.specs.Flags.{IsLawful};
ghost use Rattle.acfg_decls.specs.Places.{Finds, WhereMade, names, with_point};

use crate::declared::{FlagValue, ValuesFile};
use crate::faults::{DeclFault, DeclWhat};
use crate::flags::{Flag, Point};
use acfg_base::{PackageName, Text, is_name, is_package};
use std::alloc::AllocError;
use std::collections::HashMap;

/// Sets the values of a file behind those that were set.
pub fn set_values(
    package: &PackageName,
    file: &ValuesFile,
    places: &HashMap<&str, usize>,
    flags: &mut Vec<Flag>,
) -> Result<(), DeclFault>
    requires { Finds places.now (names flags.old.items) }
    ensures names { OnOk result (names flags.new.items ≡ names flags.old.items) }
    ensures lawful { OnOk result (All IsLawful flags.old.items → All IsLawful flags.new.items) }
    ensures made { OnOk result (WhereMade «package».now flags.old.items (λ container set declared.
        flags.new.items ≡ map (flag_of «package».now container (set ++ sourced file.now)) declared)) }
    ensures passed { OnOk result (WhereMade «package».now flags.old.items (λ container set declared.
        AllByRecursion Holds (file_tests «package».now declared file.now))) }
    ensures err { IfErr result (λ fault.
        IfAt fault (λ place what. WhereMade «package».now flags.old.items (λ container set declared.
        FirstFails (file_tests «package».now declared file.now) place what))) }
{
    for value in file.values.as_slice() {
        set_value(package, &file.source, value, places, flags)?;
    }
    Ok(())
}

// Sets one value, where it is of a declared flag of the package.
fn set_value(
    package: &PackageName,
    source: &Text,
    value: &FlagValue,
    places: &HashMap<&str, usize>,
    flags: &mut Vec<Flag>,
) -> Result<(), DeclFault>
    requires { Finds places.now (names flags.old.items) }
    ensures names { OnOk result (names flags.new.items ≡ names flags.old.items) }
    ensures lawful { OnOk result (All IsLawful flags.old.items → All IsLawful flags.new.items) }
    ensures made { OnOk result (WhereMade «package».now flags.old.items (λ container set declared.
        flags.new.items ≡ map (flag_of «package».now container (set ++ (source.now, value.now) ∷ [])) declared)) }
    ensures passed { OnOk result (WhereMade «package».now flags.old.items (λ container set declared.
        AllByRecursion Holds (value_tests «package».now declared value.now))) }
    ensures err { IfErr result (λ fault.
        IfAt fault (λ place what. WhereMade «package».now flags.old.items (λ container set declared.
        FirstFails (value_tests «package».now declared value.now) place what))) }
{
    if !is_package(value.package.text.as_str().as_bytes()) {
        return Err(DeclFault::At(value.package.place, DeclWhat::BadName));
    }
    if !is_name(value.name.text.as_str().as_bytes()) {
        return Err(DeclFault::At(value.name.place, DeclWhat::BadName));
    }
    if value.package.text.as_str() != package.as_str() {
        return Ok(());
    }
    let Some(&place) = places.get(value.name.text.as_str()) else {
        return Ok(());
    };
    let flag = &mut flags[place];
    if is_freed(flag, value) {
        return Err(DeclFault::At(value.place, DeclWhat::FixedFlag));
    }
    add_point(flag, source, value)?;
    Ok(())
}

// Whether a value makes a fixed flag READ_WRITE.
fn is_freed(flag: &Flag, value: &FlagValue) -> bool
    ensures { result ≡ (flag.now.fixed && value.now.writable) }
{
    flag.fixed && value.writable
}

// A value's point behind those that the flag has.
fn add_point(flag: &mut Flag, source: &Text, value: &FlagValue) -> Result<(), AllocError>
    ensures { OnOk result (flag.new ≡ with_point flag.old (source.now, value.now)) }
{
    let point = Point {
        source: source.clone()?,
        enabled: value.enabled,
        writable: value.writable,
    };
    flag.trace.push(point)?;
    flag.enabled = value.enabled;
    flag.writable = value.writable;
    Ok(())
}
