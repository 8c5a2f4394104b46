//! Caches as inputs, read in the order of words.

ghost use Rattle.std.specs.Prelude.{◌≡◌, [], IfOk, IfErr, MatchOption, map, slice_index_or, string_bytes};
ghost use Rattle.acfg_top.specs.Bodies.{IfRefused, IsNotTaken, IsTaken, input_of, inputs_of, text_in};
ghost use Rattle.acfg_top.specs.Caches.{IsBadCache, IsCache};
ghost use Rattle.acfg_top.specs.CreateStorage.{AreOwn, FirstStranger, IsNoOwnCache, IsOwnCache};
ghost use Rattle.acfg_top.specs.Inputs.{AreAccepted, FirstRefused};

use crate::inputs::Input;
use crate::told::{Halt, Refusal, refused};
use acfg_cache::{CacheFault, decode};
use acfg_decls::{Flag, Flags};
use std::alloc::Global;

/// The flags of caches, or the refusal of the first bad one. Where a container is given, a cache with a flag of another
/// one is bad too.
pub fn read_caches(
    alloc: Global,
    container: Option<&str>,
    inputs: &[Input<'_>],
) -> Result<Vec<Flags>, Halt>
    ensures ok { IfOk result (λ lists. AreAccepted (IsTaken (text_in container.entry))
        (IsNotTaken (text_in container.entry)) (inputs_of inputs.now) lists.items) }
    ensures err { IfErr result (IfRefused (FirstRefused (IsTaken (text_in container.entry))
        (IsNotTaken (text_in container.entry)) (inputs_of inputs.now))) }
{
    let mut lists = Vec::new(alloc);
    for input in inputs {
        lists.push(taken(alloc, container, input)?)?;
    }
    Ok(lists)
}

// The flags of a cache, all of them the container's where one is given, or its refusal.
fn taken(alloc: Global, container: Option<&str>, input: &Input<'_>) -> Result<Flags, Halt>
    ensures ok { IfOk result (IsTaken (text_in container.entry) (input_of input.now)) }
    ensures err { IfErr result (IfRefused (λ file what. (file ≡ input.now.name.now)
        × IsNotTaken (text_in container.entry) (input_of input.now) what)) }
{
    match container {
        None => read_cache(alloc, input),
        Some(container) => own_cache(alloc, container, input),
    }
}

// The flags of a cache, or its refusal.
fn read_cache(alloc: Global, input: &Input<'_>) -> Result<Flags, Halt>
    ensures ok { IfOk result (IsCache (input_of input.now)) }
    ensures err { IfErr result (IfRefused (λ file what. (file ≡ input.now.name.now)
        × IsBadCache (input_of input.now) what)) }
{
    match decode(alloc, &input.bytes) {
        Ok(flags) => Ok(flags),
        Err(CacheFault::OutOfMemory) => Err(Halt::OutOfMemory),
        Err(fault) => Err(Halt::Refused(refused(alloc, input.name, Refusal::Cache(fault))?)),
    }
}

// The flags of a cache, all of them the container's, or its refusal.
fn own_cache(alloc: Global, container: &str, input: &Input<'_>) -> Result<Flags, Halt>
    ensures ok { IfOk result (IsOwnCache container.now (input_of input.now)) }
    ensures err { IfErr result (IfRefused (λ file what. (file ≡ input.now.name.now)
        × IsNoOwnCache container.now (input_of input.now) what)) }
{
    let flags = read_cache(alloc, input)?;
    match first_stranger(flags.list(), container) {
        None => Ok(flags),
        Some(position) => Err(Halt::Refused(refused(
            alloc,
            input.name,
            Refusal::Stranger(position),
        )?)),
    }
}

// The position of the first flag that is another container's.
fn first_stranger(flags: &[Flag], container: &str) -> Option<usize>
    ensures { MatchOption result (AreOwn container.now flags.now) (FirstStranger container.now flags.now) }
{
    for (position, flag) in flags.iter().enumerate() {
        if flag.container.as_str() != container {
            return Some(position);
        }
    }
    None
}

/// The name of a file at a position.
pub fn name_at(files: &[String], position: usize) -> &str
    ensures { result.now ≡ slice_index_or (map string_bytes files.now) position [] }
{
    match files.get(position) {
        Some(name) => name.as_str(),
        None => "",
    }
}
