//! What each call makes of the files, the name changes that are pending and the words said.
//!
//! Each function takes its memory first and then does what can't fail, so that a refusal leaves all as it was.

ghost use Rattle.std.specs.Prelude.{◌≡◌, ◌≢◌, ◌+◌, ◌≤◌, ◌<◌, ◌++◌, [], ◌∷◌, IsSomeAnd, OnOk, OnErr, length, vec_len};
ghost use Rattle.std.specs.Prelude.{vec_capacity};
ghost use Rattle.acfg_device.specs.Calls.{after_write, after_write_at, after_sync, after_rename, after_remove};
ghost use Rattle.acfg_device.specs.Calls.{after_sync_names, after_say};
ghost use Rattle.acfg_memdev.specs.Slots.{disk_of, names_of};

use crate::file::{File, Loose, overwrite, settle};
use crate::slots::{Slots, make_slot, put};
use acfg_device::OutOfMemory;
use std::alloc::Global;

/// A name change, with what undoes it: a file was made; a file was moved from a name to another, whose file
/// was lost; a name was removed from its file.
#[derive(Drop)]
pub enum Change {
    Made(String),
    Moved(String, String, Option<File>),
    Removed(String, File),
}

/// The files, the name changes since they were last synced, the newest last, and the words said.
#[derive(Drop)]
pub struct Disk {
    pub slots: Slots,
    pub pending: Vec<Change>,
    pub said: Vec<u8>,
}

/// Pushes where there is room.
pub fn push_within<T: Drop>(items: &mut Vec<T>, item: T)
    requires { vec_len items.old < vec_capacity items.old }
    ensures { items.new.items ≡ items.old.items ++ item ∷ [] }
{
    let _ = items.push(item);
}

pub fn write(disk: &mut Disk, alloc: Global, name: &str, bytes: &[u8]) -> Result<(), OutOfMemory>
    ensures ok { OnOk result (disk_of disk.new ≡ after_write (disk_of disk.old) name.now bytes.now) }
    ensures err { OnErr result (disk_of disk.new ≡ disk_of disk.old) }
{
    let file = File {
        bytes: Vec::from_slice(alloc, bytes)?,
        loose: Loose::Replaced,
    };
    let made = String::from_str(alloc, name)?;
    disk.pending.reserve(1)?;
    make_slot(&mut disk.slots, alloc, name)?;
    match put(&mut disk.slots, name, Some(file)) {
        Some(_) => {}
        None => push_within(&mut disk.pending, Change::Made(made)),
    }
    Ok(())
}

pub fn rename(disk: &mut Disk, alloc: Global, from: &str, to: &str) -> Result<(), OutOfMemory>
    requires { from.now ≢ to.now }
    ensures ok { OnOk result (disk_of disk.new ≡ after_rename (disk_of disk.old) from.now to.now) }
    ensures err { OnErr result (disk_of disk.new ≡ disk_of disk.old) }
{
    let old = String::from_str(alloc, from)?;
    let new = String::from_str(alloc, to)?;
    disk.pending.reserve(1)?;
    make_slot(&mut disk.slots, alloc, from)?;
    make_slot(&mut disk.slots, alloc, to)?;
    let moved = put(&mut disk.slots, from, None);
    let lost = put(&mut disk.slots, to, moved);
    push_within(&mut disk.pending, Change::Moved(old, new, lost));
    Ok(())
}

pub fn remove(disk: &mut Disk, alloc: Global, name: &str) -> Result<(), OutOfMemory>
    ensures ok { OnOk result (disk_of disk.new ≡ after_remove (disk_of disk.old) name.now) }
    ensures err { OnErr result (disk_of disk.new ≡ disk_of disk.old) }
{
    let gone = String::from_str(alloc, name)?;
    disk.pending.reserve(1)?;
    make_slot(&mut disk.slots, alloc, name)?;
    match put(&mut disk.slots, name, None) {
        Some(file) => push_within(&mut disk.pending, Change::Removed(gone, file)),
        None => {}
    }
    Ok(())
}

pub fn sync(disk: &mut Disk, alloc: Global, name: &str) -> Result<(), OutOfMemory>
    ensures ok { OnOk result (disk_of disk.new ≡ after_sync (disk_of disk.old) name.now) }
    ensures err { OnErr result (disk_of disk.new ≡ disk_of disk.old) }
{
    make_slot(&mut disk.slots, alloc, name)?;
    match put(&mut disk.slots, name, None) {
        Some(file) => {
            put(&mut disk.slots, name, Some(settle(alloc, file)));
        }
        None => {}
    }
    Ok(())
}

pub fn write_at(
    disk: &mut Disk,
    alloc: Global,
    name: &str,
    at: usize,
    bytes: &[u8],
) -> Result<(), OutOfMemory>
    requires { IsSomeAnd (names_of disk.old.slots name.now) (λ file. at + length bytes.now ≤ length file.bytes) }
    ensures ok { OnOk result (disk_of disk.new ≡ after_write_at (disk_of disk.old) name.now at bytes.now) }
    ensures err { OnErr result (disk_of disk.new ≡ disk_of disk.old) }
{
    make_slot(&mut disk.slots, alloc, name)?;
    match put(&mut disk.slots, name, None) {
        Some(mut file) => {
            match overwrite(&mut file, at, bytes) {
                Ok(()) => {
                    put(&mut disk.slots, name, Some(file));
                    Ok(())
                }
                Err(refusal) => {
                    put(&mut disk.slots, name, Some(file));
                    Err(refusal)
                }
            }
        }
        None => unreachable!(),
    }
}

pub fn say(disk: &mut Disk, bytes: &[u8]) -> Result<(), OutOfMemory>
    ensures ok { OnOk result (disk_of disk.new ≡ after_say (disk_of disk.old) bytes.now) }
    ensures err { OnErr result (disk_of disk.new ≡ disk_of disk.old) }
{
    Ok(disk.said.extend_from_slice(bytes)?)
}

pub fn sync_names(disk: &mut Disk)
    ensures { disk_of disk.new ≡ after_sync_names (disk_of disk.old) }
{
    disk.pending.clear();
}
