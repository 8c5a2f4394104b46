//! Flags made of their declarations, each tested behind those before it.

ghost use Rattle.std.specs.Prelude.{◌≡◌, ◌∷◌, ◌++◌, [], List, map, IfOk, IfErr, OnOk, All};
ghost use Rattle.std.specs.List.{AllByRecursion};
ghost use Rattle.acfg_decls.specs.Compile.{OfPackage, FirstFails, Holds, IfAt, flag_of, flag_tests, header_tests};
ghost use Rattle.acfg_decls.specs.Compile.{own_tests, tests_behind};
ghost use Rattle.acfg_decls.specs.Flags.{IsLawful};
ghost use Rattle.acfg_decls.specs.Places.{Finds, names};

use crate::compiling::MOST_FLAGS;
use crate::declared::{DeclarationsFile, DeclaredFlag, Placed};
use crate::faults::{DeclFault, DeclWhat};
use crate::flags::{Flag, Point};
use crate::own::read_container;
use acfg_base::{
    ContainerName, Name, PackageName, Sequence, Text, is_container, is_name, is_package,
};
use std::alloc::{AllocError, Global};
use std::collections::HashMap;

/// Declares the flags of a file behind those that are there.
pub fn declare<'a>(
    alloc: Global,
    package: &PackageName,
    container: &ContainerName,
    file: &'a DeclarationsFile,
    places: &mut HashMap<&'a str, usize>,
    flags: &mut Vec<Flag>,
) -> Result<(), DeclFault>
    requires { Finds places.old (names flags.old.items) }
    ensures finds { OnOk result (Finds places.new (names flags.new.items)) }
    ensures flags { OnOk result (flags.new.items ≡ flags.old.items
        ++ map (λ flag. flag_of «package».now container.now [] (file.now.source, flag)) file.now.flags) }
    ensures lawful { OnOk result (All IsLawful flags.old.items → All IsLawful flags.new.items) }
    ensures passed { OnOk result (AllByRecursion Holds (header_tests «package».now container.now file.now
        ++ flag_tests (names flags.old.items) file.now.flags)) }
    ensures err { IfErr result (λ fault.
        IfAt fault (FirstFails (header_tests «package».now container.now file.now
        ++ flag_tests (names flags.old.items) file.now.flags))) }
{
    test_header(package, container, file)?;
    for flag in file.flags.as_slice() {
        declare_flag(alloc, package, container, &file.source, flag, places, flags)?;
    }
    Ok(())
}

// Declares a flag behind those that are there.
fn declare_flag<'a>(
    alloc: Global,
    package: &PackageName,
    container: &ContainerName,
    source: &Text,
    flag: &'a DeclaredFlag,
    places: &mut HashMap<&'a str, usize>,
    flags: &mut Vec<Flag>,
) -> Result<(), DeclFault>
    requires { Finds places.old (names flags.old.items) }
    ensures finds { OnOk result (Finds places.new (names flags.new.items)) }
    ensures flags { OnOk result (flags.new.items ≡ flags.old.items
        ++ flag_of «package».now container.now [] (source.now, flag.now) ∷ []) }
    ensures lawful { OnOk result (All IsLawful flags.old.items → All IsLawful flags.new.items) }
    ensures passed { OnOk result (AllByRecursion Holds (tests_behind (names flags.old.items) flag.now)) }
    ensures err { IfErr result (λ fault. IfAt fault (FirstFails (tests_behind (names flags.old.items) flag.now))) }
{
    let (name, namespace) = test_flag(alloc, flag)?;
    if places
        .insert(flag.name.text.as_str(), flags.len())?
        .is_some()
    {
        return Err(DeclFault::At(flag.place, DeclWhat::Declared));
    }
    if flags.len() >= MOST_FLAGS {
        return Err(DeclFault::At(flag.place, DeclWhat::TooMany));
    }
    flags.push(make_flag(alloc, package, container, source, flag, name, namespace)?)?;
    Ok(())
}

// Tests the package and the container that a file names.
fn test_header(
    package: &PackageName,
    container: &ContainerName,
    file: &DeclarationsFile,
) -> Result<(), DeclFault>
    ensures ok { OnOk result (AllByRecursion Holds (header_tests «package».now container.now file.now)) }
    ensures err { IfErr result (λ fault. IfAt fault (FirstFails (header_tests «package».now container.now file.now))) }
{
    if !is_package(file.package.text.as_str().as_bytes()) {
        return Err(DeclFault::At(file.package.place, DeclWhat::BadName));
    }
    match &file.container {
        None => test_package(package, &file.package),
        Some(named) => {
            if !is_container(named.text.as_str().as_bytes()) {
                return Err(DeclFault::At(named.place, DeclWhat::BadName));
            }
            test_package(package, &file.package)?;
            if read_container(named.text.as_str()) != container.as_str() {
                return Err(DeclFault::At(named.place, DeclWhat::WrongContainer));
            }
            Ok(())
        }
    }
}

// Tests that a file is of the package that is asked for.
fn test_package(package: &PackageName, named: &Placed) -> Result<(), DeclFault>
    ensures ok { OnOk result (named.now.text ≡ «package».now) }
    ensures err { IfErr result (λ fault. IfAt fault (FirstFails (OfPackage «package».now named.now ∷ []))) }
{
    if named.text.as_str() != package.as_str() {
        return Err(DeclFault::At(named.place, DeclWhat::WrongPackage));
    }
    Ok(())
}

// Tests a flag by itself, and gives its name and its namespace.
fn test_flag(alloc: Global, flag: &DeclaredFlag) -> Result<(Name, Name), DeclFault>
    ensures names { IfOk result (λ names. names ≡ (flag.now.name.text, flag.now.namespace.text)) }
    ensures ok { OnOk result (AllByRecursion Holds (own_tests flag.now)) }
    ensures err { IfErr result (λ fault. IfAt fault (FirstFails (own_tests flag.now))) }
{
    let Some(name) = Name::parse(alloc, flag.name.text.as_str())? else {
        return Err(DeclFault::At(flag.name.place, DeclWhat::BadName));
    };
    let Some(namespace) = Name::parse(alloc, flag.namespace.text.as_str())? else {
        return Err(DeclFault::At(flag.namespace.place, DeclWhat::BadName));
    };
    if flag.description.text.as_str().is_empty() {
        return Err(DeclFault::At(flag.description.place, DeclWhat::EmptyDescription));
    }
    let bugs = flag.bugs.as_slice().len();
    if bugs != 1 {
        return Err(DeclFault::At(flag.place, DeclWhat::BugCount(bugs as u64)));
    }
    Ok((name, namespace))
}

// The flag of a declaration, before any value.
fn make_flag(
    alloc: Global,
    package: &PackageName,
    container: &ContainerName,
    source: &Text,
    flag: &DeclaredFlag,
    name: Name,
    namespace: Name,
) -> Result<Flag, AllocError>
    requires name { name ≡ flag.now.name.text }
    requires namespace { namespace ≡ flag.now.namespace.text }
    ensures flag { IfOk result (λ made. made ≡ flag_of «package».now container.now [] (source.now, flag.now)) }
    ensures lawful { IfOk result IsLawful }
{
    let start = Point {
        source: source.clone()?,
        enabled: false,
        writable: !flag.fixed,
    };
    let mut trace = Vec::with_capacity(alloc, 1)?;
    trace.push(start)?;
    Ok(Flag {
        package: package.clone()?,
        name,
        namespace,
        description: flag.description.text.clone()?,
        bugs: copy_texts(alloc, flag.bugs.as_slice())?,
        enabled: false,
        writable: !flag.fixed,
        trace: Sequence::from_vec(trace),
        fixed: flag.fixed,
        exported: flag.exported,
        container: container.clone()?,
        purpose: flag.purpose,
    })
}

fn copy_texts(alloc: Global, texts: &[Text]) -> Result<Sequence<Text>, AllocError>
    ensures { IfOk result (λ copies. copies ≡ texts.now) }
{
    let mut copies = Vec::with_capacity(alloc, texts.len())?;
    for text in texts {
        copies.push(text.clone()?)?;
    }
    Ok(Sequence::from_vec(copies))
}
