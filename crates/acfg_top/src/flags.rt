//! `flags FILE`: the flags of one declarations file.

ghost use Rattle.std.specs.Prelude.{◌≡◌, ◌++◌, IsTrue, IfOk, IfErr, OnErr, OnOk, string_bytes};
ghost use Rattle.std.specs.List.{flat_map};
ghost use Rattle.acfg_device.specs.Only.{OnlyReads, OnlySays};
ghost use Rattle.acfg_decls.specs.Reading.{Declares};
ghost use Rattle.acfg_dump.specs.Lines.{flag_line};
ghost use Rattle.acfg_top.specs.Bodies.{Comes, IsOf};
ghost use Rattle.acfg_top.specs.Flags.{FlagsGives};
ghost use Rattle.acfg_top.specs.Outcome.{Outcome, IsBroken};

use crate::ending::{Ending, Stop};
use crate::told::{Refusal, Told, refused, tell};
use acfg_decls::{CompileFault, DeclFault, Declarations, Flag, compile_own, read_declarations};
use acfg_device::Panel;
use acfg_dump::{permission_name, state_name};
use std::alloc::{AllocError, Global};

/// Lists the flags of one declarations file.
pub fn flags<P: Panel>(alloc: Global, file: &str, panel: &mut P) -> Result<Ending, Stop>
    ensures told { IsTrue P.tells → IfOk result (λ ending.
        Comes P.Panel (FlagsGives file.now (P.files panel.old file.now)) ending panel.old panel.new) }
    ensures broken { IsTrue P.tells → OnErr result ((outcome : Outcome)
        → FlagsGives file.now (P.files panel.old file.now) outcome → IsBroken P.Panel outcome panel.old panel.new) }
    ensures says { OnlySays P.Panel panel.old panel.new (result ≡ Err Stop.Failed) }
{
    let told = read_flags(alloc, file, panel)?;
    tell(panel, &told)
}

// What one declarations file has to tell.
fn read_flags<P: Panel>(alloc: Global, file: &str, panel: &mut P) -> Result<Told, Stop>
    ensures told { IsTrue P.tells → IfOk result (λ told. (outcome : Outcome)
        × FlagsGives file.now (P.files panel.old file.now) outcome × IsOf outcome told) }
    ensures reads { OnlyReads P.Panel panel.old panel.new (result ≡ Err Stop.Failed) }
{
    match panel.read(alloc, file)? {
        None => Ok(refused(alloc, file, Refusal::Missing)?),
        Some(bytes) => listed(alloc, file, &bytes),
    }
}

// The flags of a file of these bytes.
fn listed(alloc: Global, file: &str, bytes: &[u8]) -> Result<Told, Stop>
    ensures told { IfOk result (λ told. (outcome : Outcome)
        × FlagsGives file.now (Some bytes.now) outcome × IsOf outcome told) }
    ensures err { IfErr result (λ stop. stop ≡ Stop.OutOfMemory) }
{
    match read_declarations(alloc, file, bytes) {
        Ok(declarations) => compiled(alloc, file, bytes, &declarations),
        Err(DeclFault::At(place, what)) => Ok(refused(
            alloc,
            file,
            Refusal::Declarations(place, what),
        )?),
        Err(DeclFault::OutOfMemory) => Err(Stop::OutOfMemory),
    }
}

// The flags of declarations that were read of these bytes.
fn compiled(
    alloc: Global,
    file: &str,
    bytes: &[u8],
    declarations: &Declarations,
) -> Result<Told, Stop>
    requires { Declares file.now bytes.now declarations.now }
    ensures told { IfOk result (λ told. (outcome : Outcome)
        × FlagsGives file.now (Some bytes.now) outcome × IsOf outcome told) }
    ensures err { IfErr result (λ stop. stop ≡ Stop.OutOfMemory) }
{
    match compile_own(alloc, declarations) {
        Ok(flags) => Ok(Told {
            ending: Ending::Done,
            text: listing(alloc, flags.list())?.into_bytes(),
        }),
        Err(CompileFault::In(_, place, what)) => Ok(refused(
            alloc,
            file,
            Refusal::Declarations(place, what),
        )?),
        Err(CompileFault::OutOfMemory) => Err(Stop::OutOfMemory),
    }
}

// One line a flag.
fn listing(alloc: Global, flags: &[Flag]) -> Result<String, AllocError>
    ensures { IfOk result (λ text. string_bytes text ≡ flat_map flag_line flags.now) }
{
    let mut text = String::new(alloc);
    for flag in flags {
        push_line(&mut text, flag)?;
    }
    Ok(text)
}

fn push_line(text: &mut String, flag: &Flag) -> Result<(), AllocError>
    ensures { OnOk result (string_bytes text.new ≡ string_bytes text.old ++ flag_line flag.now) }
{
    let package = flag.package.as_str();
    let name = flag.name.as_str();
    let container = flag.container.as_str();
    let permission = permission_name(flag.writable);
    let state = state_name(flag.enabled);
    write!(
        text,
        "{package}.{name} [{container}]: {permission} + {state}\n"
    )
}
