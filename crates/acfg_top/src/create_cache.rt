//! `create-cache PACKAGE CONTAINER OUT FILE..`: declarations and values compiled, and written as a cache.

ghost use Rattle.std.specs.Prelude.{◌≡◌, ◌==◌, [], IsTrue, IfOk, IfErr, OnErr, OnOk, filter, map, slice_index_or};
ghost use Rattle.std.specs.Prelude.{codes, string_bytes};
ghost use Rattle.std.specs.List.{ends_with};
ghost use Rattle.acfg_base.specs.Names.{IsContainer, IsPackage};
ghost use Rattle.acfg_decls.specs.Compile.{Compiles, container_read};
ghost use Rattle.acfg_device.specs.Only.{OnlyReads};
ghost use Rattle.acfg_top.specs.Bodies.{AreAt, Comes, IfRefused, IsAdded, IsFault, IsProduct, input_of, inputs_of};
ghost use Rattle.acfg_top.specs.CreateCache.{CreateCacheGives, FlagsCached, InputsGive, IsBadDeclarations};
ghost use Rattle.acfg_top.specs.CreateCache.{IsBadSource, IsBadValues, IsDeclarations, IsValues, cached_count};
ghost use Rattle.acfg_top.specs.CreateCache.{has_declarations as declares, has_values as sets, sources};
ghost use Rattle.acfg_top.specs.Inputs.{AreAccepted, FirstRefused};
ghost use Rattle.acfg_top.specs.Outcome.{Outcome, IsBroken, OnlyWrites, Refused};

use crate::ending::{Ending, Stop};
use crate::inputs::{Found, Input, read_inputs};
use crate::output::{Output, only_told, put_out};
use crate::told::{Halt, Refusal, Told, refused};
use crate::words::CacheWords;
use acfg_base::{ContainerName, OutOfMemory, PackageName};
use acfg_cache::encode;
use acfg_commit::NewFile;
use acfg_decls::{
    CompileFault, DeclFault, Declarations, Flags, Values, compile, read_container,
    read_declarations, read_values,
};
use acfg_device::{Device, Panel};
use std::alloc::{AllocError, Global};

/// Writes the cache of declarations and values, and says how many flags it has.
pub fn create_cache<D: Device>(
    alloc: Global,
    asked: CacheWords<'_>,
    device: &mut D,
) -> Result<Ending, Stop>
    requires of_package { IsPackage asked.package.now }
    requires of_container { IsContainer asked.container.now }
    ensures told { IsTrue D.tells → IfOk result (λ ending. Comes D.Panel
        (CreateCacheGives asked.entry.package.now asked.entry.container.now asked.entry.out.now
        (map string_bytes asked.entry.files.now) (D.files device.old)) ending device.old device.new) }
    ensures broken { IsTrue D.tells → OnErr result ((outcome : Outcome)
        → CreateCacheGives asked.entry.package.now asked.entry.container.now asked.entry.out.now
        (map string_bytes asked.entry.files.now) (D.files device.old) outcome
        → IsBroken D.Panel outcome device.old device.new) }
    ensures writes { OnlyWrites D.Panel (λ name. name ≡ asked.entry.out.now) device.old device.new
        (result ≡ Err Stop.Failed) }
{
    let output = answer(alloc, asked, device)?;
    put_out(device, &output)
}

// What there is to write and to tell.
fn answer<P: Panel>(alloc: Global, asked: CacheWords<'_>, panel: &mut P) -> Result<Output, Stop>
    requires of_package { IsPackage asked.package.now }
    requires of_container { IsContainer asked.container.now }
    ensures told { IsTrue P.tells → IfOk result (IsProduct (CreateCacheGives asked.entry.package.now
        asked.entry.container.now asked.entry.out.now (map string_bytes asked.entry.files.now) (P.files panel.old))) }
    ensures names { IfOk result (AreAt asked.entry.out.now) }
    ensures reads { OnlyReads P.Panel panel.old panel.new (result ≡ Err Stop.Failed) }
{
    match read_inputs(alloc, asked.files, panel)? {
        Found::All(inputs) => judged(alloc, asked, &inputs),
        Found::Missing(name) => Ok(only_told(alloc, refused(alloc, name, Refusal::Missing)?)),
    }
}

// What there is to write and to tell of files.
fn judged(alloc: Global, asked: CacheWords<'_>, inputs: &[Input<'_>]) -> Result<Output, Stop>
    requires of_package { IsPackage asked.package.now }
    requires of_container { IsContainer asked.container.now }
    ensures told { IfOk result (IsProduct (InputsGive asked.entry.package.now
        (container_read asked.entry.container.now) asked.entry.out.now (inputs_of inputs.now))) }
    ensures names { IfOk result (AreAt asked.entry.out.now) }
    ensures err { IfErr result (λ stop. stop ≡ Stop.OutOfMemory) }
{
    match cached(alloc, asked, inputs) {
        Ok(output) => Ok(output),
        Err(Halt::Refused(told)) => Ok(only_told(alloc, told)),
        Err(Halt::OutOfMemory) => Err(Stop::OutOfMemory),
    }
}

// The cache of files, and what there is to tell of it.
fn cached(alloc: Global, asked: CacheWords<'_>, inputs: &[Input<'_>]) -> Result<Output, Halt>
    requires of_package { IsPackage asked.package.now }
    requires of_container { IsContainer asked.container.now }
    ensures ok { IfOk result (IsProduct (InputsGive asked.entry.package.now
        (container_read asked.entry.container.now) asked.entry.out.now (inputs_of inputs.now))) }
    ensures names { IfOk result (AreAt asked.entry.out.now) }
    ensures err { IfErr result (IfRefused (λ file what. InputsGive asked.entry.package.now
        (container_read asked.entry.container.now) asked.entry.out.now (inputs_of inputs.now) (Refused file what))) }
{
    let declarations = all_declarations(alloc, inputs)?;
    let values = all_values(alloc, inputs)?;
    let flags = compiled(alloc, asked, &declarations, &values)?;
    Ok(product(alloc, asked.out, &flags)?)
}

// The cache of flags as a file, and what there is to tell of it.
fn product(alloc: Global, out: &str, flags: &Flags) -> Result<Output, OutOfMemory>
    ensures ok { IfOk result (IsProduct (FlagsCached out.now flags.now)) }
    ensures names { IfOk result (AreAt out.now) }
{
    let bytes = encode(alloc, flags)?;
    let name = String::from_str(alloc, out)?;
    let mut files = Vec::new(alloc);
    files.push(NewFile { name, bytes })?;
    let text = cached_text(alloc, flags.list().len())?;
    Ok(Output {
        told: Told {
            ending: Ending::Done,
            text: text.into_bytes(),
        },
        files,
    })
}

fn cached_text(alloc: Global, count: usize) -> Result<String, AllocError>
    ensures { IfOk result (λ text. string_bytes text ≡ cached_count count) }
{
    format!(in alloc; "cached {count} flags\n")
}

// The flags of declarations and values, or the refusal of the first file at fault.
fn compiled(
    alloc: Global,
    asked: CacheWords<'_>,
    declarations: &[Declarations],
    values: &[Values],
) -> Result<Flags, Halt>
    requires of_package { IsPackage asked.package.now }
    requires of_container { IsContainer asked.container.now }
    ensures ok { IfOk result (Compiles asked.entry.package.now (container_read asked.entry.container.now)
        declarations.now values.now) }
    ensures err { IfErr result (IfRefused (IsBadSource asked.entry.package.now
        (container_read asked.entry.container.now) declarations.now values.now)) }
{
    let package = package_of(alloc, asked.package)?;
    let container = container_of(alloc, read_container(asked.container))?;
    match compile(alloc, &package, &container, declarations, values) {
        Ok(flags) => Ok(flags),
        Err(CompileFault::In(number, place, what)) => Err(Halt::Refused(refused(
            alloc,
            source_at(declarations, values, number),
            Refusal::Declarations(place, what),
        )?)),
        Err(CompileFault::OutOfMemory) => Err(Halt::OutOfMemory),
    }
}

fn package_of(alloc: Global, name: &str) -> Result<PackageName, OutOfMemory>
    requires { IsPackage name.now }
    ensures { IfOk result (λ made. made ≡ name.now) }
{
    match PackageName::parse(alloc, name)? {
        Some(name) => Ok(name),
        None => unreachable!(),
    }
}

/// A lawful name as the name of a container.
pub fn container_of(alloc: Global, name: &str) -> Result<ContainerName, OutOfMemory>
    requires { IsContainer name.now }
    ensures { IfOk result (λ made. made ≡ name.now) }
{
    match ContainerName::parse(alloc, name)? {
        Some(name) => Ok(name),
        None => unreachable!(),
    }
}

// The name of the file of this number, in the order in which they are compiled.
fn source_at<'a>(declarations: &'a [Declarations], values: &'a [Values], number: usize) -> &'a str
    ensures { result.now ≡ slice_index_or (sources declarations.now values.now) number [] }
{
    match declarations.get(number) {
        Some(file) => file.file().source.as_str(),
        None => value_source_at(values, number - declarations.len()),
    }
}

fn value_source_at(values: &[Values], number: usize) -> &str
    ensures { result.now ≡ slice_index_or (map (λ file. file.source) values.now) number [] }
{
    match values.get(number) {
        Some(file) => file.file().source.as_str(),
        None => "",
    }
}

// The declarations among files, or the refusal of the first bad one.
fn all_declarations(alloc: Global, inputs: &[Input<'_>]) -> Result<Vec<Declarations>, Halt>
    ensures ok { IfOk result (λ all. AreAccepted IsDeclarations IsBadDeclarations
        (filter declares (inputs_of inputs.now)) all.items) }
    ensures err { IfErr result (IfRefused (FirstRefused IsDeclarations IsBadDeclarations
        (filter declares (inputs_of inputs.now)))) }
{
    let mut all = Vec::new(alloc);
    for input in inputs {
        add_declarations(alloc, input, &mut all)?;
    }
    Ok(all)
}

fn add_declarations(
    alloc: Global,
    input: &Input<'_>,
    all: &mut Vec<Declarations>,
) -> Result<(), Halt>
    ensures ok { OnOk result (IsAdded IsDeclarations (declares (input_of input.now)) (input_of input.now)
        all.old.items all.new.items) }
    ensures err { IfErr result (IfRefused (λ file what. IsTrue (declares (input_of input.now))
        × (file ≡ input.now.name.now) × IsBadDeclarations (input_of input.now) what)) }
{
    if !has_declarations(input.name) {
        return Ok(());
    }
    all.push(declared(alloc, input)?)?;
    Ok(())
}

fn declared(alloc: Global, input: &Input<'_>) -> Result<Declarations, Halt>
    ensures ok { IfOk result (IsDeclarations (input_of input.now)) }
    ensures err { IfErr result (IfRefused (λ file what. (file ≡ input.now.name.now)
        × IsBadDeclarations (input_of input.now) what)) }
{
    match read_declarations(alloc, input.name, &input.bytes) {
        Ok(file) => Ok(file),
        Err(fault) => Err(fault_of(alloc, input.name, fault)),
    }
}

// The values among files, or the refusal of the first bad one.
fn all_values(alloc: Global, inputs: &[Input<'_>]) -> Result<Vec<Values>, Halt>
    ensures ok { IfOk result (λ all. AreAccepted IsValues IsBadValues
        (filter sets (inputs_of inputs.now)) all.items) }
    ensures err { IfErr result (IfRefused (FirstRefused IsValues IsBadValues
        (filter sets (inputs_of inputs.now)))) }
{
    let mut all = Vec::new(alloc);
    for input in inputs {
        add_values(alloc, input, &mut all)?;
    }
    Ok(all)
}

fn add_values(alloc: Global, input: &Input<'_>, all: &mut Vec<Values>) -> Result<(), Halt>
    ensures ok { OnOk result (IsAdded IsValues (sets (input_of input.now)) (input_of input.now)
        all.old.items all.new.items) }
    ensures err { IfErr result (IfRefused (λ file what. IsTrue (sets (input_of input.now))
        × (file ≡ input.now.name.now) × IsBadValues (input_of input.now) what)) }
{
    if has_declarations(input.name) {
        return Ok(());
    }
    all.push(set_values(alloc, input)?)?;
    Ok(())
}

fn set_values(alloc: Global, input: &Input<'_>) -> Result<Values, Halt>
    ensures ok { IfOk result (IsValues (input_of input.now)) }
    ensures err { IfErr result (IfRefused (λ file what. (file ≡ input.now.name.now)
        × IsBadValues (input_of input.now) what)) }
{
    match read_values(alloc, input.name, &input.bytes) {
        Ok(file) => Ok(file),
        Err(fault) => Err(fault_of(alloc, input.name, fault)),
    }
}

// The refusal of a file for its first fault.
fn fault_of(alloc: Global, name: &str, fault: DeclFault) -> Halt
    ensures { IfRefused (λ file what. (file ≡ name.now) × IsFault fault what) result }
{
    match fault {
        DeclFault::At(place, what) => {
            match refused(alloc, name, Refusal::Declarations(place, what)) {
                Ok(told) => Halt::Refused(told),
                Err(_) => Halt::OutOfMemory,
            }
        }
        DeclFault::OutOfMemory => Halt::OutOfMemory,
    }
}

// Whether the name of a file is one of declarations.
fn has_declarations(name: &str) -> bool
    ensures { result ≡ ends_with (λ a b. a == b) name.now (codes ".aconfig") }
{
    name.as_bytes().ends_with(b".aconfig")
}
