//! Calls that were carried out, and one function that carries one out.

ghost use Rattle.std.specs.Prelude.{◌≡◌, OnOk, OnErr, IfOk, map};
ghost use Rattle.acfg_memdev.specs.Slots.{disk_of};
ghost use Rattle.acfg_memdev.specs.History.{CanDo, CanDoAll, Write, WriteAt, Sync, Rename, Remove, Say, carried};
ghost use Rattle.acfg_memdev.specs.History.{done, until};
ghost use Rattle.acfg_memdev.specs.Kept.{logged_of, call_of};

use crate::disk::{Disk, remove, rename, say, sync, sync_names, write, write_at};
use acfg_device::OutOfMemory;
use std::alloc::Global;

/// A call on the device, with what it was given.
#[derive(Drop)]
pub enum Call {
    Write(String, Vec<u8>),
    WriteAt(String, usize, Vec<u8>),
    Sync(String),
    Rename(String, String),
    Remove(String),
    SyncNames,
    Say(Vec<u8>),
}

/// Carries a call out, or leaves the disk as it was.
pub fn perform(disk: &mut Disk, alloc: Global, call: &Call) -> Result<(), OutOfMemory>
    requires { CanDo (call_of call.now) (disk_of disk.old) }
    ensures ok { OnOk result (disk_of disk.new ≡ done (call_of call.now) (disk_of disk.old)) }
    ensures err { OnErr result (disk_of disk.new ≡ disk_of disk.old) }
{
    match call {
        Call::Write(name, bytes) => write(disk, alloc, name.as_str(), bytes.as_slice()),
        Call::WriteAt(name, at, bytes) => {
            write_at(disk, alloc, name.as_str(), *at, bytes.as_slice())
        }
        Call::Sync(name) => sync(disk, alloc, name.as_str()),
        Call::Rename(from, to) => rename(disk, alloc, from.as_str(), to.as_str()),
        Call::Remove(name) => remove(disk, alloc, name.as_str()),
        Call::SyncNames => {
            sync_names(disk);
            Ok(())
        }
        Call::Say(bytes) => say(disk, bytes.as_slice()),
    }
}

/// Carries out the calls below a number, in order.
pub fn replay(
    disk: &mut Disk,
    alloc: Global,
    log: &[(u128, Call)],
    calls: u128,
) -> Result<(), OutOfMemory>
    requires { CanDoAll (map logged_of log.now) (disk_of disk.old) }
    ensures { OnOk result (disk_of disk.new ≡ carried (until calls (map logged_of log.now)) (disk_of disk.old)) }
{
    for (number, call) in log {
        if *number >= calls {
            return Ok(());
        }
        perform(disk, alloc, call)?;
    }
    Ok(())
}

impl Call {
    pub fn write(alloc: Global, name: &str, bytes: &[u8]) -> Result<Call, OutOfMemory>
        ensures { IfOk result (λ call. call_of call ≡ Write name.now bytes.now) }
    {
        let name = String::from_str(alloc, name)?;
        Ok(Call::Write(name, Vec::from_slice(alloc, bytes)?))
    }

    pub fn write_at(alloc: Global, name: &str, at: usize, bytes: &[u8]) -> Result<Call, OutOfMemory>
        ensures { IfOk result (λ call. call_of call ≡ WriteAt name.now at bytes.now) }
    {
        let name = String::from_str(alloc, name)?;
        Ok(Call::WriteAt(name, at, Vec::from_slice(alloc, bytes)?))
    }

    pub fn sync(alloc: Global, name: &str) -> Result<Call, OutOfMemory>
        ensures { IfOk result (λ call. call_of call ≡ Sync name.now) }
    {
        Ok(Call::Sync(String::from_str(alloc, name)?))
    }

    pub fn rename(alloc: Global, from: &str, to: &str) -> Result<Call, OutOfMemory>
        ensures { IfOk result (λ call. call_of call ≡ Rename from.now to.now) }
    {
        let from = String::from_str(alloc, from)?;
        Ok(Call::Rename(from, String::from_str(alloc, to)?))
    }

    pub fn remove(alloc: Global, name: &str) -> Result<Call, OutOfMemory>
        ensures { IfOk result (λ call. call_of call ≡ Remove name.now) }
    {
        Ok(Call::Remove(String::from_str(alloc, name)?))
    }

    pub fn say(alloc: Global, bytes: &[u8]) -> Result<Call, OutOfMemory>
        ensures { IfOk result (λ call. call_of call ≡ Say bytes.now) }
    {
        Ok(Call::Say(Vec::from_slice(alloc, bytes)?))
    }
}
