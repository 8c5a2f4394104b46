//! The device over the current folder.

ghost use Rattle.std.specs.Prelude.{◌≡◌, ◌≤◌, ◌+◌, ℕ, [], false, min, refl, MatchResult, OnErr};
ghost use Rattle.acfg_device.proofs.Cuts.{settled_leaves, told_now};
ghost use Rattle.acfg_device.specs.Account.{untold};
ghost use Rattle.acfg_device.specs.Disk.{told};
ghost use Rattle.acfg_device.specs.Panel.{Rose, last_count};
ghost use Rattle.acfg_hostdev.specs.Host.{CountsFailure, CountsFault};

use crate::faults::HostFault;
use crate::files::{
    read_file, remove_file, rename_file, sync_file, sync_folders, write_file, write_file_at,
};
use crate::folders::Folders;
use crate::transfer::write_whole;
use acfg_device::{Device, Failed, Panel, ReadFault};
use std::alloc::Global;
use std::io;
use std::marker::Model;
use std::rt::Files;

/// The current folder of the host and its standard output, and how often they failed.
///
/// Names are paths from the current folder. Want of memory in a call other than `read` counts as a failure,
/// and so do a file of more than 1,073,741,824 bytes that is read and a host that takes no byte.
#[derive(Drop)]
pub struct HostDevice<R: Files + Print + Drop> {
    rt: R,
    alloc: Global,
    folders: Folders,
    faults: u64,
}

/// Contracts see how often the host failed.
impl<R: Files + Print + Drop> Model for HostDevice<R> {
    ghost Value = { ℕ };

    ghost view = { λ device. device.faults };
}

impl<R: Files + Print + Drop> HostDevice<R> {
    pub fn new(rt: R, alloc: Global) -> HostDevice<R>
        ensures { result ≡ 0 }
    {
        HostDevice {
            rt,
            alloc,
            folders: Folders::new(alloc),
            faults: 0,
        }
    }

    // Counts a failure. At its last value the count stands.
    fn count(&mut self)
        ensures raised { self.new ≡ min (self.old + 1) last_count }
        ensures count { self.old ≤ self.new }
    {
        self.faults = self.faults.saturating_add(1);
    }

    // Counts a failure, if it is one.
    fn counted(&mut self, done: Result<(), HostFault>) -> Result<(), Failed>
        ensures counted { CountsFailure result self.old self.new }
        ensures count { self.old ≤ self.new }
    {
        match done {
            Ok(()) => Ok(()),
            Err(_fault) => {
                self.count();
                Err(Failed)
            }
        }
    }
}

/// It tells neither files nor words.
impl<R: Files + Print + Drop> Panel for HostDevice<R> {
    ghost tells = { false };

    ghost files = { λ device. told untold.now };

    ghost said = { λ device. [] };

    ghost account = { λ device. untold };

    ghost faults = { λ device. device };

    ghost files_told = { λ device. refl };

    ghost said_told = { λ device. refl };

    ghost told_now = { λ device. told_now untold.now };

    ghost settled_leaves = { λ device files said. settled_leaves untold.now files said };

    fn read(&mut self, alloc: Global, name: &str) -> Result<Option<Vec<u8>>, ReadFault>
        ensures counted { MatchResult result (λ _. self.new ≡ self.old) (λ fault. CountsFault fault self.old self.new) }
        ensures count { self.old ≤ self.new }
        ensures failed { result ≡ Err ReadFault.Failed → Rose self.old self.new }
    {
        match read_file(&self.rt, alloc, name) {
            Ok(found) => Ok(found),
            Err(HostFault::OutOfMemory) => Err(ReadFault::OutOfMemory),
            Err(HostFault::Failed) => {
                self.count();
                Err(ReadFault::Failed)
            }
        }
    }

    fn say(&mut self, bytes: &[u8]) -> Result<(), Failed>
        ensures counted { CountsFailure result self.old self.new }
        ensures count { self.old ≤ self.new }
        ensures failed { OnErr result (Rose self.old self.new) }
    {
        let done = write_whole(&mut io::writer(&self.rt), bytes);
        self.counted(done)
    }
}

/// `sync` and `sync_names` wait for the host's `fsync` of the file, and of each folder in which names changed.
impl<R: Files + Print + Drop> Device for HostDevice<R> {
    fn write(&mut self, name: &str, bytes: &[u8]) -> Result<(), Failed>
        ensures counted { CountsFailure result self.old self.new }
        ensures count { self.old ≤ self.new }
        ensures failed { OnErr result (Rose self.old self.new) }
    {
        let done = write_file(&self.rt, &mut self.folders, self.alloc, name, bytes);
        self.counted(done)
    }

    fn write_at(&mut self, name: &str, at: u64, bytes: &[u8]) -> Result<(), Failed>
        ensures counted { CountsFailure result self.old self.new }
        ensures count { self.old ≤ self.new }
        ensures failed { OnErr result (Rose self.old self.new) }
    {
        let done = write_file_at(&self.rt, name, at, bytes);
        self.counted(done)
    }

    fn sync(&mut self, name: &str) -> Result<(), Failed>
        ensures counted { CountsFailure result self.old self.new }
        ensures count { self.old ≤ self.new }
        ensures failed { OnErr result (Rose self.old self.new) }
    {
        let done = sync_file(&self.rt, &mut self.folders, self.alloc, name);
        self.counted(done)
    }

    fn rename(&mut self, from: &str, to: &str) -> Result<(), Failed>
        ensures counted { CountsFailure result self.old self.new }
        ensures count { self.old ≤ self.new }
        ensures failed { OnErr result (Rose self.old self.new) }
    {
        let done = rename_file(&self.rt, &mut self.folders, self.alloc, from, to);
        self.counted(done)
    }

    fn remove(&mut self, name: &str) -> Result<(), Failed>
        ensures counted { CountsFailure result self.old self.new }
        ensures count { self.old ≤ self.new }
        ensures failed { OnErr result (Rose self.old self.new) }
    {
        let done = remove_file(&self.rt, &mut self.folders, self.alloc, name);
        self.counted(done)
    }

    fn sync_names(&mut self) -> Result<(), Failed>
        ensures counted { CountsFailure result self.old self.new }
        ensures count { self.old ≤ self.new }
        ensures failed { OnErr result (Rose self.old self.new) }
    {
        let done = sync_folders(&self.rt, &mut self.folders);
        self.counted(done)
    }
}
