//! A change of overrides that is for now too: the overrides are committed, and then the boot copy with that flag anew.

ghost use Rattle.std.specs.Prelude.{◌≡◌, ◌<◌, Err, IfErr, IfOk, IsErr, IsTrue, OnOk, get_or, length, true};
ghost use Rattle.acfg_device.specs.Disk.{IsSettled};
ghost use Rattle.acfg_device.specs.Left.{LeavesSince};
ghost use Rattle.acfg_device.specs.Only.{OnlyChanges, OnlyReads};
ghost use Rattle.acfg_model.specs.Step.{IsRenewable, change_step};
ghost use Rattle.acfg_store.specs.declared.containers.Kept as kept;
ghost use Rattle.acfg_store.specs.Applied.{IsMade, IsOfCall, IsOpen, IsQuiet, LeavesBetween, state_in};
ghost use Rattle.acfg_store.specs.BootPlans.{IsRenewalPlan, IsRenewedBy, LeavesRenewed, renewed_at};
ghost use Rattle.acfg_store.specs.Names.{IsOfDirectory};
ghost use Rattle.acfg_store.specs.Opening.{AreKept, entries_of};
ghost use Rattle.acfg_store.specs.Stands.{Entry};
ghost use Rattle.acfg_store.specs.Updated.{view_of};

use crate::booting::{CopyPlan, plan_renewal};
use crate::containers::{BootSlot, Kept};
use crate::overriding::change_now_in;
use crate::planning::plan_change;
use crate::store::Store;
use crate::store_fault::StoreFault;
use acfg_commit::commit;
use acfg_device::{Device, Failed};
use acfg_model::{Change, FlagKey, Reply};
use std::alloc::Global;

impl Store {
    /// Changes the overrides of a container and the flag's entry in its boot copy with them, unless the change is
    /// refused. The changed ones are written to the override slot that isn't named, and the list is committed, which
    /// names it; then the boot copy is written to the boot slot that isn't named, and its pointer is committed. All
    /// memory is taken before the first write.
    ///
    /// # Errors
    ///
    /// `Device` where the outside failed, and `OutOfMemory` where an allocation was refused; then nothing is written.
    pub(crate) fn apply_now<D: Device>(
        self,
        alloc: Global,
        device: &mut D,
        name: &str,
        change: &Change<'_>,
    ) -> Result<(Store, Reply), StoreFault>
        requires { IsTrue D.tells → IsOpen (D.files device.old) self }
        ensures made { IfOk result (λ made. IsMade self (change_step true (state_in self) name.now change.now)
            made.0 made.1) }
        ensures open { IsTrue D.tells → IfOk result (λ made. IsOpen (D.files device.new) made.0) }
        ensures changes { OnlyChanges D.Panel (IsOfDirectory self.dir) device.old device.new
            (result ≡ Err StoreFault.Device) }
        ensures quiet { IfOk result (λ made. IsQuiet made.1 → OnlyReads D.Panel device.old device.new ⊥) }
        ensures memory { result ≡ Err StoreFault.OutOfMemory → OnlyReads D.Panel device.old device.new ⊥ }
        ensures fault { IfErr result IsOfCall }
        ensures cut { IsTrue D.tells → IsSettled (D.account device.old).now
            → LeavesSince (D.account device.old) (D.account device.new)
            (LeavesBetween (D.files device.old) (D.said device.old) self
            (change_step true (state_in self) name.now change.now).0) }
        ensures settled { IsTrue D.tells → IsSettled (D.account device.old).now
            → IfOk result (λ made. IsSettled (D.account device.new).now) }
    {
        let Store {
            dir,
            mut containers,
        } = self;
        match change_now_in(&mut containers, name, change) {
            Ok(at) => {
                let plan = plan_change(alloc, dir.as_str(), &containers, at)?;
                let copy = plan_renewal(alloc, dir.as_str(), &containers[at], change.key())?;
                commit(
                    device,
                    plan.slot.as_slice(),
                    plan.beside.as_str(),
                    plan.list.as_str(),
                    plan.bytes.as_slice(),
                )?;
                commit_renewal(
                    device,
                    dir.as_str(),
                    &mut containers,
                    at,
                    change.key(),
                    copy,
                )?;
                Ok((Store { dir, containers }, Reply::Fine))
            }
            Err(refusal) => Ok((Store { dir, containers }, Reply::Refused(refusal.number()))),
        }
    }
}

// Commits the boot copy of the container at a place with one flag anew: its files are written to the slot that isn't
// named, and then the pointer is committed, which names it.
fn commit_renewal<D: Device>(
    device: &mut D,
    dir: &str,
    containers: &mut Vec<Kept>,
    at: usize,
    key: &FlagKey<'_>,
    plan: CopyPlan,
) -> Result<(), Failed>
    requires kept { AreKept containers.old.items }
    requires within { at < length containers.old.items }
    requires renewable { (one : kept.Kept) → IsRenewable (get_or containers.old.items at one).container.boot key.now }
    requires planned { (one : kept.Kept) → IsRenewalPlan dir.now (get_or containers.old.items at one) key.now plan }
    requires open { IsTrue D.tells → IsOpen (D.files device.old) (view_of dir.now containers.old.items) }
    ensures kept { OnOk result (AreKept containers.new.items) }
    ensures entries { OnOk result ((other : Entry) → entries_of containers.new.items
        ≡ renewed_at (entries_of containers.old.items) at key.now other) }
    ensures open { IsTrue D.tells → OnOk result (IsOpen (D.files device.new) (view_of dir.now containers.new.items)) }
    ensures changes { OnlyChanges D.Panel (IsOfDirectory dir.now) device.old device.new (IsErr result) }
    ensures cut { IsTrue D.tells → IsSettled (D.account device.old).now
        → LeavesSince (D.account device.old) (D.account device.new)
        (LeavesRenewed (D.files device.old) (D.said device.old) dir.now (entries_of containers.old.items) at key.now) }
    ensures settled { IsTrue D.tells → IsSettled (D.account device.old).now
        → OnOk result (IsSettled (D.account device.new).now) }
{
    commit(
        device,
        plan.files.as_slice(),
        plan.beside.as_str(),
        plan.pointer.as_str(),
        plan.bytes.as_slice(),
    )?;
    let one = &mut containers[at];
    one.take_renewed(plan.boot, key);
    Ok(())
}

impl Kept {
    // Takes the files of the boot copy that were made with one flag of the container anew.
    fn take_renewed(&mut self, boot: BootSlot, key: &FlagKey<'_>)
        requires { IsRenewable self.old.container.boot key.now }
        ensures { IsRenewedBy boot key.now self.old self.new }
    {
        self.container.renew(key);
        self.boot = Some(boot);
    }
}
