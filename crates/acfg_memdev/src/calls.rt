//! The calls of the traits.

ghost use Rattle.std.specs.Prelude.{◌≡◌, ◌≢◌, ◌⊎◌, ◌+◌, ◌≤◌, ◌++◌, ◌↔◌, Some, None, true, refl, IsTrue, IsErr};
ghost use Rattle.std.specs.Prelude.{IsSome, IsSomeAnd, IfOk, OnOk, OnErr, length};
ghost use Rattle.std.specs.Option.{option_map};
ghost use Rattle.acfg_device.proofs.Cuts.{settled_leaves, told_now};
ghost use Rattle.acfg_device.specs.Calls.{spliced};
ghost use Rattle.acfg_device.specs.Only.{OnlyChanges, OnlySyncs};
ghost use Rattle.acfg_device.specs.Outcomes.{MayHaveRemoved, MayHaveRenamed, MayHaveSaid, MayHaveWritten};
ghost use Rattle.acfg_device.specs.Outcomes.{MayHaveWrittenAt, Removed, Renamed, Said, Synced, SyncedNames, Wrote};
ghost use Rattle.acfg_device.specs.Outcomes.{WroteAt};
ghost use Rattle.acfg_device.specs.Panel.{Rose, SaysPart};
ghost use Rattle.acfg_memdev.specs.History.{Write, WriteAt, Sync, Rename, Remove, SyncNames, Say, IsCall, account_of};
ghost use Rattle.acfg_memdev.specs.History.{called, faults_of, files_of, is_listed, said_of};

use crate::call::Call;
use crate::device::MemDevice;
use acfg_device::{Device, Failed, OutOfMemory, Panel, ReadFault};
use std::alloc::Global;

/// It tells its files and words. A call of `read` whose number is listed fails; another finds the file or the
/// want of memory.
impl Panel for MemDevice {
    ghost tells = { true };

    ghost files = { files_of };

    ghost said = { said_of };

    ghost account = { account_of };

    ghost faults = { faults_of };

    ghost files_told = { λ device. refl };

    ghost said_told = { λ device. refl };

    ghost told_now = { λ device. told_now (account_of device).now };

    ghost settled_leaves = { λ device files said. settled_leaves (account_of device).now files said };

    fn read(&mut self, alloc: Global, name: &str) -> Result<Option<Vec<u8>>, ReadFault>
        ensures call { self.new ≡ called self.old }
        ensures listed { IsTrue (is_listed self.old.fails self.old.calls) ↔ (result ≡ Err ReadFault.Failed) }

        ensures found { IsTrue true → IfOk result (λ found. option_map (λ bytes. bytes.items) found
            ≡ files_of self.old name.now) }
        ensures files { files_of self.new ≡ files_of self.old }
        ensures said { said_of self.new ≡ said_of self.old }
        ensures account { account_of self.new ≡ account_of self.old }
        ensures count { faults_of self.old ≤ faults_of self.new }
        ensures failed { result ≡ Err ReadFault.Failed → Rose (faults_of self.old) (faults_of self.new) }
    {
        match self.begin() {
            Ok(_) => match self.bytes_of(alloc, name) {
                Ok(found) => Ok(found),
                Err(OutOfMemory) => Err(ReadFault::OutOfMemory),
            },
            Err(Failed) => Err(ReadFault::Failed),
        }
    }

    fn say(&mut self, bytes: &[u8]) -> Result<(), Failed>
        ensures call { IsCall result self.old self.new (Say bytes.now) }

        ensures ok { IsTrue true → OnOk result (said_of self.new ≡ said_of self.old ++ bytes.now) }
        ensures err { IsTrue true → OnErr result (SaysPart (said_of self.old) (said_of self.new) bytes.now) }
        ensures account_ok { IsTrue true → OnOk result (Said (account_of self.old) (account_of self.new) bytes.now) }
        ensures account_err { IsTrue true → OnErr result
            (MayHaveSaid (account_of self.old) (account_of self.new) bytes.now) }
        ensures files { files_of self.new ≡ files_of self.old }
        ensures names { (account_of self.new).now.names ≡ (account_of self.old).now.names }
        ensures pending { (account_of self.new).now.pending ≡ (account_of self.old).now.pending }
        ensures count { faults_of self.old ≤ faults_of self.new }
        ensures failed { OnErr result (Rose (faults_of self.old) (faults_of self.new)) }
    {
        let call = Call::say(self.alloc(), bytes);
        self.call(call)?;
        Ok(())
    }
}

/// A call whose number is listed fails and changes nothing, and so does one that finds no memory.
impl Device for MemDevice {
    fn write(&mut self, name: &str, bytes: &[u8]) -> Result<(), Failed>
        ensures call { IsCall result self.old self.new (Write name.now bytes.now) }

        ensures ok { IsTrue true → OnOk result (Wrote (account_of self.old) (account_of self.new) name.now bytes.now) }
        ensures err { IsTrue true → OnErr result (MayHaveWritten (account_of self.old) (account_of self.new) name.now) }
        ensures file { IsTrue true → OnOk result (files_of self.new name.now ≡ Some bytes.now) }
        ensures changes { OnlyChanges ⟦<MemDevice as Panel>⟧ (λ other. other ≡ name.now) self.old self.new
            (IsErr result) }
    {
        let call = Call::write(self.alloc(), name, bytes);
        self.call(call)?;
        Ok(())
    }

    fn write_at(&mut self, name: &str, at: u64, bytes: &[u8]) -> Result<(), Failed>
        requires { IsTrue true → IsSomeAnd (files_of self.old name.now) (λ held. at + length bytes.now ≤ length held) }
        ensures call { IsCall result self.old self.new (WriteAt name.now at bytes.now) }

        ensures ok { IsTrue true → OnOk result (WroteAt (account_of self.old)
            (account_of self.new) name.now at bytes.now) }
        ensures err { IsTrue true → OnErr result (MayHaveWrittenAt (account_of self.old)
            (account_of self.new) name.now at (length bytes.now)) }
        ensures file { IsTrue true → OnOk result (files_of self.new name.now
            ≡ option_map (λ held. spliced held at bytes.now) (files_of self.old name.now)) }
        ensures changes { OnlyChanges ⟦<MemDevice as Panel>⟧ (λ other. other ≡ name.now) self.old self.new
            (IsErr result) }
    {
        let call = Call::write_at(self.alloc(), name, at as usize, bytes);
        self.call(call)?;
        Ok(())
    }

    fn sync(&mut self, name: &str) -> Result<(), Failed>
        requires { IsTrue true → IsSome (files_of self.old name.now) }
        ensures call { IsCall result self.old self.new (Sync name.now) }

        ensures ok { IsTrue true → OnOk result (Synced (account_of self.old) (account_of self.new) name.now) }
        ensures err { IsTrue true → OnErr result (account_of self.new ≡ account_of self.old) }
        ensures syncs { OnlySyncs ⟦<MemDevice as Panel>⟧ self.old self.new (IsErr result) }
    {
        let call = Call::sync(self.alloc(), name);
        self.call(call)?;
        Ok(())
    }

    fn rename(&mut self, from: &str, to: &str) -> Result<(), Failed>
        requires there { IsTrue true → IsSome (files_of self.old from.now) }
        requires apart { IsTrue true → from.now ≢ to.now }
        ensures call { IsCall result self.old self.new (Rename from.now to.now) }

        ensures ok { IsTrue true → OnOk result (Renamed (account_of self.old) (account_of self.new) from.now to.now) }
        ensures err { IsTrue true → OnErr result (MayHaveRenamed (account_of self.old)
            (account_of self.new) from.now to.now) }
        ensures file { IsTrue true → OnOk result (files_of self.new to.now ≡ files_of self.old from.now) }
        ensures gone { IsTrue true → OnOk result (files_of self.new from.now ≡ None) }
        ensures changes { OnlyChanges ⟦<MemDevice as Panel>⟧
            (λ other. (other ≡ from.now) ⊎ (other ≡ to.now)) self.old self.new (IsErr result) }
    {
        let call = Call::rename(self.alloc(), from, to);
        self.call(call)?;
        Ok(())
    }

    fn remove(&mut self, name: &str) -> Result<(), Failed>
        ensures call { IsCall result self.old self.new (Remove name.now) }

        ensures ok { IsTrue true → OnOk result (Removed (account_of self.old) (account_of self.new) name.now) }
        ensures err { IsTrue true → OnErr result (MayHaveRemoved (account_of self.old) (account_of self.new) name.now) }
        ensures gone { IsTrue true → OnOk result (files_of self.new name.now ≡ None) }
        ensures changes { OnlyChanges ⟦<MemDevice as Panel>⟧ (λ other. other ≡ name.now) self.old self.new
            (IsErr result) }
    {
        let call = Call::remove(self.alloc(), name);
        self.call(call)?;
        Ok(())
    }

    fn sync_names(&mut self) -> Result<(), Failed>
        ensures call { IsCall result self.old self.new SyncNames }

        ensures ok { IsTrue true → OnOk result (SyncedNames (account_of self.old) (account_of self.new)) }
        ensures err { IsTrue true → OnErr result (account_of self.new ≡ account_of self.old) }
        ensures syncs { OnlySyncs ⟦<MemDevice as Panel>⟧ self.old self.new (IsErr result) }
    {
        let call = Ok(Call::SyncNames);
        self.call(call)?;
        Ok(())
    }
}
