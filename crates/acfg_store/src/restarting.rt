//! A boot: of one container after another, the boot copy is written and then named.

ghost use Rattle.std.specs.Prelude.{◌≡◌, ◌<◌, Err, IfErr, IfOk, IsTrue, None, length};
ghost use Rattle.acfg_device.specs.Disk.{IsSettled};
ghost use Rattle.acfg_device.specs.Left.{LeavesSince};
ghost use Rattle.acfg_device.specs.Only.{OnlyChanges, OnlyReads};
ghost use Rattle.acfg_model.specs.Step.{boot_map, step};
ghost use Rattle.acfg_model.specs.Views.{boot_of};
ghost use Rattle.acfg_store.specs.Applied.{IsMade, IsOfCall, IsOpen, IsQuiet, LeavesBetween, state_in};
ghost use Rattle.acfg_store.specs.BootPlans.{IsBootedBy, LeavesBooted, booted_at};
ghost use Rattle.acfg_store.specs.Names.{IsOfDirectory};
ghost use Rattle.acfg_store.specs.Stands.{Entry};

use crate::booting::{BootPlan, plan_boot};
use crate::containers::{BootSlot, Kept};
use crate::store::Store;
use crate::store_fault::StoreFault;
use acfg_commit::commit;
use acfg_device::Device;
use acfg_model::{BootCopy, Reply, Request};
use std::alloc::Global;

impl Store {
    /// Boots all containers, one after another in the order of their names.
    ///
    /// # Errors
    ///
    /// `Device` where the outside failed, and `OutOfMemory` where an allocation was refused; then some containers may
    /// be booted already, and the files stand for that.
    pub(crate) fn boot<D: Device>(
        self,
        alloc: Global,
        device: &mut D,
    ) -> Result<(Store, Reply), StoreFault>
        requires open { IsTrue D.tells → IsOpen (D.files device.old) self }
        ensures made { IfOk result (λ made. IsMade self (step (state_in self) Request.Boot None) made.0 made.1) }
        ensures open { IsTrue D.tells → IfOk result (λ made. IsOpen (D.files device.new) made.0) }
        ensures changes { OnlyChanges D.Panel (IsOfDirectory self.dir) device.old device.new
            (result ≡ Err StoreFault.Device) }
        ensures quiet { IfOk result (λ made. IsQuiet made.1 → OnlyReads D.Panel device.old device.new ⊥) }
        ensures memory { IsTrue D.tells → result ≡ Err StoreFault.OutOfMemory
            → LeavesBetween (D.files device.old) (D.said device.old) self (step (state_in self) Request.Boot None).0
            (D.files device.new) (D.said device.new) }
        ensures rests { IsTrue D.tells → IsSettled (D.account device.old).now → result ≡ Err StoreFault.OutOfMemory
            → IsSettled (D.account device.new).now }
        ensures fault { IfErr result IsOfCall }
        ensures cut { IsTrue D.tells → IsSettled (D.account device.old).now
            → LeavesSince (D.account device.old) (D.account device.new)
            (LeavesBetween (D.files device.old) (D.said device.old) self
            (step (state_in self) Request.Boot None).0) }
        ensures settled { IsTrue D.tells → IsSettled (D.account device.old).now
            → IfOk result (λ made. IsSettled (D.account device.new).now) }
    {
        let count = self.count();
        let mut store = self;
        for at in 0..count {
            match store.boot_at(alloc, device, at) {
                Ok(booted) => store = booted,
                Err(fault) => return Err(fault),
            }
        }
        Ok((store, Reply::Fine))
    }

    // How many containers there are.
    fn count(&self) -> usize
        ensures { result ≡ length self.now.entries }
    {
        self.containers.as_slice().len()
    }

    /// Boots the container at a place: its boot copy is written to the slot that isn't named, and then the pointer is
    /// committed, which names it.
    ///
    /// # Errors
    ///
    /// `Device` where the outside failed, and `OutOfMemory` where an allocation was refused; then nothing is written.
    pub(crate) fn boot_at<D: Device>(
        self,
        alloc: Global,
        device: &mut D,
        at: usize,
    ) -> Result<Store, StoreFault>
        requires within { at < length self.entries }
        requires open { IsTrue D.tells → IsOpen (D.files device.old) self }
        ensures dir { IfOk result (λ made. made.dir ≡ self.dir) }
        ensures entries { IfOk result (λ made. (other : Entry) → made.entries ≡ booted_at self.entries at other) }
        ensures open { IsTrue D.tells → IfOk result (IsOpen (D.files device.new)) }
        ensures changes { OnlyChanges D.Panel (IsOfDirectory self.dir) device.old device.new
            (result ≡ Err StoreFault.Device) }
        ensures memory { result ≡ Err StoreFault.OutOfMemory → OnlyReads D.Panel device.old device.new ⊥ }
        ensures fault { IfErr result IsOfCall }
        ensures cut { IsTrue D.tells → IsSettled (D.account device.old).now
            → LeavesSince (D.account device.old) (D.account device.new)
            (LeavesBooted (D.files device.old) (D.said device.old) self at) }
        ensures settled { IsTrue D.tells → IsSettled (D.account device.old).now
            → IfOk result (λ _. IsSettled (D.account device.new).now) }
    {
        let Store {
            dir,
            mut containers,
        } = self;
        let plan = plan_boot(alloc, dir.as_str(), &containers[at])?;
        commit(
            device,
            plan.writes.files.as_slice(),
            plan.writes.beside.as_str(),
            plan.writes.pointer.as_str(),
            plan.writes.bytes.as_slice(),
        )?;
        let BootPlan { writes, copy } = plan;
        let one = &mut containers[at];
        one.take_boot(writes.boot, copy);
        Ok(Store { dir, containers })
    }
}

impl Kept {
    // Takes the boot copy that was made for the container.
    fn take_boot(&mut self, boot: BootSlot, copy: BootCopy)
        requires { boot_of copy ≡ boot_map self.old.container }
        ensures { IsBootedBy boot self.old self.new }
    {
        self.container.set_boot(copy);
        self.boot = Some(boot);
    }
}
