//! Input files, read in the order of words.

ghost use Rattle.std.specs.Prelude.{◌≡◌, [], Ok, Some, IsTrue, IfOk, OnOk, map, option_map, string_bytes, unwrap_or};
ghost use Rattle.acfg_device.specs.Only.{OnlyReads};
ghost use Rattle.acfg_top.specs.Bodies.{found_of, missing_of, seen_then};
ghost use Rattle.acfg_top.specs.Inputs.{inputs_in, with_found};

use crate::ending::Stop;
use acfg_device::Panel;
use std::alloc::Global;

/// A file that is there, and its bytes.
#[derive(Debug, Drop)]
pub struct Input<'a> {
    pub name: &'a str,
    pub bytes: Vec<u8>,
}

/// Files that were read: all of them, or the first one that isn't there.
#[derive(Debug, Drop)]
pub enum Found<'a> {
    All(Vec<Input<'a>>),
    Missing(&'a str),
}

/// Reads files, all of them before any is judged.
pub fn read_inputs<'a, P: Panel>(
    alloc: Global,
    names: &'a [String],
    panel: &mut P,
) -> Result<Found<'a>, Stop>
    ensures found { IsTrue P.tells → IfOk result (λ found. found_of found
        ≡ inputs_in (P.files panel.old) (map string_bytes names.now)) }
    ensures reads { OnlyReads P.Panel panel.old panel.new (result ≡ Err Stop.Failed) }
{
    let mut seen = Seen {
        inputs: Vec::new(alloc),
        missing: None,
    };
    for name in names {
        read_next(alloc, name.as_str(), panel, &mut seen)?;
    }
    Ok(all_or_missing(seen))
}

/// The first of files that isn't there. What the others hold is kept nowhere.
pub fn first_missing<'a, P: Panel>(
    alloc: Global,
    names: &'a [String],
    panel: &mut P,
) -> Result<Option<&'a str>, Stop>
    ensures found { IsTrue P.tells → IfOk result (λ found. option_map (λ name. name.now) found
        ≡ missing_of (inputs_in (P.files panel.old) (map string_bytes names.now))) }
    ensures reads { OnlyReads P.Panel panel.old panel.new (result ≡ Err Stop.Failed) }
{
    for name in names {
        match panel.read(alloc, name.as_str())? {
            Some(_) => {}
            None => return Ok(Some(name.as_str())),
        }
    }
    Ok(None)
}

// The files that were read so far, and the first that isn't there.
#[derive(Debug, Drop)]
struct Seen<'a> {
    inputs: Vec<Input<'a>>,
    missing: Option<&'a str>,
}

// Reads the next file.
fn read_next<'a, P: Panel>(
    alloc: Global,
    name: &'a str,
    panel: &mut P,
    seen: &mut Seen<'a>,
) -> Result<(), Stop>
    ensures seen { IsTrue P.tells → OnOk result ((rest : _) → seen_then seen.new rest
        ≡ seen_then seen.old (with_found name.now (P.files panel.old name.now) rest)) }
    ensures reads { OnlyReads P.Panel panel.old panel.new (result ≡ Err Stop.Failed) }
{
    match panel.read(alloc, name)? {
        Some(bytes) => {
            seen.inputs.push(Input { name, bytes })?;
        }
        None => seen.missing = first_of(seen.missing, name),
    }
    Ok(())
}

// The first of names.
fn first_of<'a>(first: Option<&'a str>, next: &'a str) -> Option<&'a str>
    ensures { option_map (λ name. name.now) result
        ≡ Some (unwrap_or (option_map (λ name. name.now) first.entry) next.now) }
{
    match first {
        Some(first) => Some(first),
        None => Some(next),
    }
}

// What was found, where nothing is left to be read.
fn all_or_missing<'a>(seen: Seen<'a>) -> Found<'a>
    ensures { found_of result ≡ seen_then seen.entry (Ok []) }
{
    match seen.missing {
        Some(name) => Found::Missing(name),
        None => Found::All(seen.inputs),
    }
}
