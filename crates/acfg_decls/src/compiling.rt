//! Declarations and values compiled to flags.

ghost use Rattle.std.specs.Prelude.{◌≡◌, ◌+◌, ◌<◌, ◌^◌, ◌++◌, [], length, map, IfOk, IfErr, OnOk, All};
ghost use Rattle.std.specs.List.{AllByRecursion, flat_map};
ghost use Rattle.acfg_decls.specs.Compile.{Compiles, FailsToCompile, FirstFailsIn, Holds, IfIn};
ghost use Rattle.acfg_decls.specs.Compile.{all_tests, declarations_tests};
ghost use Rattle.acfg_decls.specs.Compile.{declared, file_tests, flag_of, sourced};
ghost use Rattle.acfg_decls.specs.Flags.{IsLawful};
ghost use Rattle.acfg_decls.specs.Places.{Finds, WhereMade, names};

use crate::arranging::arrange;
use crate::declared::{Declarations, Values};
use crate::declaring::declare;
use crate::faults::CompileFault;
use crate::flags::{Flag, Flags};
use crate::setting::set_values;
use acfg_base::{ContainerName, PackageName};
use std::alloc::{AllocError, Global};
use std::collections::HashMap;

/// The most flags of a package.
pub const MOST_FLAGS: usize = 65_535;

/// Compiles the declarations of a package for a container, and the values that are set for its flags.
///
/// A flag starts DISABLED, and READ_WRITE unless it is fixed; then each value of the package and the flag sets its
/// state and permission, in the order of the files and within them. Any other value is passed over.
///
/// # Errors
/// The first fault, in the order of the files, the declarations before the values.
pub fn compile(
    alloc: Global,
    package: &PackageName,
    container: &ContainerName,
    declarations: &[Declarations],
    values: &[Values],
) -> Result<Flags, CompileFault>
    ensures ok { IfOk result (Compiles «package».now container.now declarations.now values.now) }
    ensures err { IfErr result (λ fault.
        IfIn fault (FailsToCompile (all_tests «package».now container.now declarations.now values.now))) }
{
    let mut list = with_room(alloc, declarations)?;
    let mut places = HashMap::new(alloc);
    declare_all(
        alloc,
        package,
        container,
        declarations,
        &mut places,
        &mut list,
    )?;
    set_all(package, declarations.len(), values, &places, &mut list)?;
    arrange(alloc, &mut list)?;
    match Flags::new(alloc, list)? {
        Some(flags) => Ok(flags),
        None => unreachable!(),
    }
}

// No flags, with room for those that files declare.
fn with_room(alloc: Global, files: &[Declarations]) -> Result<Vec<Flag>, AllocError>
    ensures { IfOk result (λ list. list.items ≡ []) }
{
    let mut count = 0_usize;
    for file in files {
        count = count.saturating_add(file.file().flags.as_slice().len());
    }
    Vec::with_capacity(alloc, count.min(MOST_FLAGS))
}

// Declares the flags of each file behind those that are there.
fn declare_all<'a>(
    alloc: Global,
    package: &PackageName,
    container: &ContainerName,
    files: &'a [Declarations],
    places: &mut HashMap<&'a str, usize>,
    flags: &mut Vec<Flag>,
) -> Result<(), CompileFault>
    requires { Finds places.old (names flags.old.items) }
    ensures finds { OnOk result (Finds places.new (names flags.new.items)) }
    ensures flags { OnOk result (flags.new.items ≡ flags.old.items
        ++ map (flag_of «package».now container.now []) (declared files.now)) }
    ensures lawful { OnOk result (All IsLawful flags.old.items → All IsLawful flags.new.items) }
    ensures passed { OnOk result (AllByRecursion (AllByRecursion Holds)
        (declarations_tests «package».now container.now (names flags.old.items) files.now)) }
    ensures err { IfErr result (λ fault. IfIn fault (FirstFailsIn 0
        (declarations_tests «package».now container.now (names flags.old.items) files.now))) }
{
    let mut number = 0;
    for file in files {
        match declare(alloc, package, container, file.file(), places, flags) {
            Ok(()) => number += 1,
            Err(fault) => return Err(fault.in_file(number)),
        }
    }
    Ok(())
}

// Sets the values of each file, the first of which has this number.
fn set_all(
    package: &PackageName,
    first: usize,
    files: &[Values],
    places: &HashMap<&str, usize>,
    flags: &mut Vec<Flag>,
) -> Result<(), CompileFault>
    requires finds { Finds places.now (names flags.old.items) }
    requires room { first + length files.now < 2 ^ 64 }
    ensures names { OnOk result (names flags.new.items ≡ names flags.old.items) }
    ensures lawful { OnOk result (All IsLawful flags.old.items → All IsLawful flags.new.items) }
    ensures made { OnOk result (WhereMade «package».now flags.old.items (λ container set declared.
        flags.new.items ≡ map (flag_of «package».now container (set ++ flat_map sourced files.now)) declared)) }
    ensures passed { OnOk result (WhereMade «package».now flags.old.items (λ container set declared.
        AllByRecursion (AllByRecursion Holds) (map (file_tests «package».now declared) files.now))) }
    ensures err { IfErr result (λ fault.
        IfIn fault (λ file place what. WhereMade «package».now flags.old.items (λ container set declared.
        FirstFailsIn first (map (file_tests «package».now declared) files.now) file place what))) }
{
    let mut number = first;
    for file in files {
        match set_values(package, file.file(), places, flags) {
            Ok(()) => number += 1,
            Err(fault) => return Err(fault.in_file(number)),
        }
    }
    Ok(())
}
