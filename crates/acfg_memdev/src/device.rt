//! The device, and how a call is counted and carried out.

ghost use Rattle.std.specs.Prelude.{◌≡◌, ◌<◌, ◌≤◌, ◌^◌, [], true, false, map, min, reverse, IsTrue, IsErr, IsOkAnd};
ghost use Rattle.std.specs.Prelude.{IfOk, OnOk, OnErr, MatchResult};
ghost use Rattle.std.specs.Option.{option_map};
ghost use Rattle.std.specs.Result.{ForOk};
ghost use Rattle.acfg_device.specs.Account.{moved_on};
ghost use Rattle.acfg_device.specs.Panel.{Rose, last_count};
ghost use Rattle.acfg_memdev.specs.History.{CanDo, HasFailed, IsCall, account_of, called, disk_after, done};
ghost use Rattle.acfg_memdev.specs.History.{faults_of, files_of, is_listed, logged, saying, starved_once, unused};
ghost use Rattle.acfg_memdev.specs.Kept.{entry_of, call_of};
ghost use Rattle.acfg_memdev.specs.Slots.{disk_of};

use crate::call::{Call, perform, replay};
use crate::disk::{Disk, push_within};
use crate::slots::{read, slots_of};
use acfg_device::{Failed, OutOfMemory};
use std::alloc::Global;
use std::marker::Model;

/// A device in memory.
#[derive(Drop)]
pub struct MemDevice {
    alloc: Global,
    start: Vec<(String, Vec<u8>)>,
    words: Vec<u8>,
    log: Vec<(u128, Call)>,
    disk: Disk,
    calls: u128,
    fails: Vec<u64>,
    starved: u64,
}

impl Model for MemDevice {
    ghost use Rattle.acfg_memdev.specs.History.{History};

    ghost Value = { History };

    ghost use Rattle.acfg_memdev.specs.Tied.{IsTied, history_of};

    ghost view = { history_of };

    ghost invariant = { IsTied };
}

impl MemDevice {
    /// A settled device with these files, with nothing said and no call made. Of two entries with one name the
    /// last counts. The calls of the traits are numbered from 0, and those whose number is in `fails` fail.
    pub fn new(
        alloc: Global,
        mut files: Vec<(String, Vec<u8>)>,
        fails: Vec<u64>,
    ) -> Result<MemDevice, OutOfMemory>
        ensures { IfOk result (λ device. device ≡ unused (map entry_of (reverse files.items)) [] fails.items) }
    {
        files.reverse();
        MemDevice::from_entries(alloc, files, Vec::new(alloc), fails)
    }

    /// The same, where of two entries with one name the first counts, and these words were said.
    pub(crate) fn from_entries(
        alloc: Global,
        start: Vec<(String, Vec<u8>)>,
        words: Vec<u8>,
        fails: Vec<u64>,
    ) -> Result<MemDevice, OutOfMemory>
        ensures { IfOk result (λ device. device ≡ unused (map entry_of start.items) words.items fails.items) }
    {
        let disk = Disk {
            slots: slots_of(alloc, start.as_slice())?,
            pending: Vec::new(alloc),
            said: Vec::from_slice(alloc, words.as_slice())?,
        };
        Ok(MemDevice {
            alloc,
            start,
            words,
            log: Vec::new(alloc),
            disk,
            calls: 0,
            fails,
            starved: 0,
        })
    }

    /// The words said.
    pub fn said(&self) -> &[u8]
        ensures { result.now ≡ (account_of self.now).now.said }
    {
        self.disk.said.as_slice()
    }

    /// How many calls of the traits were made, `read` and those that failed too. A cut after so many calls is
    /// one now. The number stands at the last one of 64 bits.
    pub fn calls(&self) -> u64
        ensures { result ≡ min self.now.calls last_count }
    {
        u64::try_from(self.calls).unwrap_or(u64::MAX)
    }

    /// How many calls other than `read` found no memory.
    pub fn starved(&self) -> u64
        ensures { result ≡ self.now.starved }
    {
        self.starved
    }

    // The device's own allocator.
    pub(crate) fn alloc(&self) -> Global {
        self.alloc
    }

    pub(crate) fn bytes_of(&self, alloc: Global, name: &str) -> Result<Option<Vec<u8>>, OutOfMemory>
        ensures { IfOk result (λ found. option_map (λ bytes. bytes.items) found ≡ files_of self.now name.now) }
    {
        read(&self.disk.slots, alloc, name)
    }

    // Counts a call and gives its number, or fails where that is listed.
    pub(crate) fn begin(&mut self) -> Result<u128, Failed>
        ensures called { self.new ≡ called self.old }
        ensures cases { MatchResult result
            (λ number. (number ≡ self.old.calls) × (is_listed self.old.fails self.old.calls ≡ false))
            (λ _. is_listed self.old.fails self.old.calls ≡ true) }
        ensures count { faults_of self.old ≤ faults_of self.new }
        ensures rose { OnErr result (Rose (faults_of self.old) (faults_of self.new)) }
    {
        let number = self.calls;
        self.calls = number.saturating_add(1);
        if is_among(self.fails.as_slice(), number) {
            return Err(Failed);
        }
        Ok(number)
    }

    // The disk after the calls below this number.
    pub(crate) fn disk_at(&self, alloc: Global, calls: u64) -> Result<Disk, OutOfMemory>
        ensures { IfOk result (λ disk. disk_of disk ≡ disk_after self.now calls) }
    {
        let mut disk = Disk {
            slots: slots_of(alloc, self.start.as_slice())?,
            pending: Vec::new(alloc),
            said: Vec::from_slice(alloc, self.words.as_slice())?,
        };
        replay(&mut disk, alloc, self.log.as_slice(), u128::from(calls))?;
        Ok(disk)
    }

    // A call: it fails where its number is listed, and else it is carried out, or finds no memory.
    pub(crate) fn call(&mut self, call: Result<Call, OutOfMemory>) -> Result<(), Failed>
        requires { ForOk call (λ call. CanDo (call_of call) (account_of self.old).now) }
        ensures ok { OnOk result (IsOkAnd call (λ call. IsCall result self.old self.new (call_of call))) }
        ensures err { OnErr result (HasFailed self.old self.new) }
        ensures account { OnOk result (IsOkAnd call (λ call. account_of self.new
            ≡ moved_on (account_of self.old) (done (call_of call) (account_of self.old).now) (saying (call_of call)))) }
        ensures same { OnErr result (account_of self.new ≡ account_of self.old) }
        ensures count { faults_of self.old ≤ faults_of self.new }
        ensures rose { OnErr result (Rose (faults_of self.old) (faults_of self.new)) }
    {
        let number = self.begin()?;
        self.carry_out(number, call)?;
        Ok(())
    }

    // Carries out a call of this number, or counts that it found no memory.
    fn carry_out(&mut self, number: u128, call: Result<Call, OutOfMemory>) -> Result<(), Failed>
        requires { ForOk call (λ call. CanDo (call_of call) (account_of self.old).now) }
        ensures cases { MatchResult result (λ _. IsOkAnd call
            (λ call. self.new ≡ logged self.old number (call_of call))) (λ _. self.new ≡ starved_once self.old) }
        ensures count { faults_of self.old ≤ faults_of self.new }
        ensures rose { OnErr result (Rose (faults_of self.old) (faults_of self.new)) }
    {
        match call {
            Ok(call) => match self.log_call(number, call) {
                Ok(()) => Ok(()),
                Err(OutOfMemory) => self.starve(),
            },
            Err(OutOfMemory) => self.starve(),
        }
    }

    fn log_call(&mut self, number: u128, call: Call) -> Result<(), OutOfMemory>
        requires { CanDo (call_of call) (account_of self.old).now }
        ensures ok { OnOk result (self.new ≡ logged self.old number (call_of call)) }
        ensures err { OnErr result (self.new ≡ self.old) }
    {
        self.log.reserve(1)?;
        perform(&mut self.disk, self.alloc, &call)?;
        push_within(&mut self.log, (number, call));
        Ok(())
    }

    fn starve(&mut self) -> Result<(), Failed>
        ensures starved { self.new ≡ starved_once self.old }
        ensures failed { IsErr result }
        ensures count { faults_of self.old ≤ faults_of self.new }
        ensures rose { Rose (faults_of self.old) (faults_of self.new) }
    {
        self.starved = self.starved.saturating_add(1);
        Err(Failed)
    }
}

fn is_among(fails: &[u64], number: u128) -> bool
    ensures value { result ≡ is_listed fails.now number }
    ensures small { IsTrue result → number < 2 ^ 64 }
{
    for fail in fails {
        if u128::from(*fail) == number {
            return true;
        }
    }
    false
}
