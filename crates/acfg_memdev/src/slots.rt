//! The file that each name names.

ghost use Rattle.std.specs.Prelude.{◌≡◌, List, ℕ, [], Some, true, false, IsSome, IfOk, OnOk, is_some, map};
ghost use Rattle.std.specs.BTreeMap.{get_by_text};
ghost use Rattle.std.specs.Map.{update};
ghost use Rattle.std.specs.Option.{option_map};
ghost use Rattle.std.specs.Str.{bytes_eq};
ghost use Rattle.acfg_memdev.specs.Held.{file_of};
ghost use Rattle.acfg_memdev.specs.History.{given, settled_disk, settled_file};
ghost use Rattle.acfg_memdev.specs.Kept.{entry_of};
ghost use Rattle.acfg_memdev.specs.Slots.{names_of};

use crate::file::{File, Loose};
use acfg_device::OutOfMemory;
use std::alloc::Global;
use std::collections::BTreeMap;
use std::mem;

/// A slot for each name that was ever used, which is empty where the name names no file.
pub type Slots = BTreeMap<String, Option<File>>;

/// Makes a slot for the name, where there is none.
pub fn make_slot(slots: &mut Slots, alloc: Global, name: &str) -> Result<(), OutOfMemory>
    ensures names { names_of slots.new ≡ names_of slots.old }
    ensures ok { OnOk result (IsSome (get_by_text slots.new name.now)) }
    ensures stay { (other : List ℕ) → IsSome (get_by_text slots.old other) → IsSome (get_by_text slots.new other) }
{
    if !slots.contains_key(name) {
        let key = String::from_str(alloc, name)?;
        slots.insert(key, None)?;
    }
    Ok(())
}

/// Puts a file into a slot, or empties it, and gives what was there.
pub fn put(slots: &mut Slots, name: &str, file: Option<File>) -> Option<File>
    requires { IsSome (get_by_text slots.old name.now) }
    ensures names { names_of slots.new ≡ update bytes_eq (names_of slots.old) name.now (option_map file_of file) }
    ensures was { option_map file_of result ≡ names_of slots.old name.now }
    ensures stay { (other : List ℕ) → IsSome (get_by_text slots.old other) → IsSome (get_by_text slots.new other) }
{
    match slots.get_mut(name) {
        Some(slot) => mem::replace(slot, file),
        None => unreachable!(),
    }
}

/// Whether the name names a file.
pub fn is_there(slots: &Slots, name: &str) -> bool
    ensures { result ≡ is_some (names_of slots.now name.now) }
{
    match slots.get(name) {
        Some(slot) => slot.is_some(),
        None => false,
    }
}

// Puts a synced file into the slot, where there is none.
fn fill_slot(slots: &mut Slots, alloc: Global, name: &str, bytes: &[u8]) -> Result<(), OutOfMemory>
    ensures there { is_some (names_of slots.old name.now) ≡ true → names_of slots.new ≡ names_of slots.old }
    ensures absent { is_some (names_of slots.old name.now) ≡ false
        → OnOk result (names_of slots.new ≡ update bytes_eq (names_of slots.old) name.now
        (Some (settled_file bytes.now))) }
{
    if is_there(slots, name) {
        return Ok(());
    }
    let file = File {
        bytes: Vec::from_slice(alloc, bytes)?,
        loose: Loose::Within(Vec::new(alloc)),
    };
    make_slot(slots, alloc, name)?;
    put(slots, name, Some(file));
    Ok(())
}

/// Slots for these files, all of them synced. Of two entries with one name the first counts.
pub fn slots_of(alloc: Global, files: &[(String, Vec<u8>)]) -> Result<Slots, OutOfMemory>
    ensures { IfOk result (λ slots. names_of slots ≡ (settled_disk (given (map entry_of files.now)) []).names) }
{
    let mut slots = BTreeMap::new(alloc);
    for (name, bytes) in files {
        fill_slot(&mut slots, alloc, name.as_str(), bytes.as_slice())?;
    }
    Ok(slots)
}

/// A copy of the bytes of the file that the name names, if it names one.
pub fn read(slots: &Slots, alloc: Global, name: &str) -> Result<Option<Vec<u8>>, OutOfMemory>
    ensures { IfOk result (λ found. option_map (λ bytes. bytes.items) found
        ≡ option_map (λ file. file.bytes) (names_of slots.now name.now)) }
{
    match slots.get(name) {
        Some(Some(file)) => Ok(Some(Vec::from_slice(alloc, file.bytes.as_slice())?)),
        Some(None) => Ok(None),
        None => Ok(None),
    }
}
