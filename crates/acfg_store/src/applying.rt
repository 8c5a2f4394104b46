//! Requests that change overrides or read, on a store.

ghost use Rattle.std.specs.Prelude.{◌≡◌, Err, IfErr, IfOk, IsTrue, false};
ghost use Rattle.acfg_device.specs.Disk.{IsSettled};
ghost use Rattle.acfg_device.specs.Left.{LeavesSince};
ghost use Rattle.acfg_device.specs.Only.{OnlyChanges, OnlyReads};
ghost use Rattle.acfg_model.specs.Step.{change_step, get_reply};
ghost use Rattle.acfg_store.specs.Applied.{IsMade, IsOfCall, IsOpen, IsQuiet, LeavesBetween, state_in};
ghost use Rattle.acfg_store.specs.Names.{IsOfDirectory};

use crate::looking::reply_from;
use crate::overriding::change_in;
use crate::planning::plan_change;
use crate::store::Store;
use crate::store_fault::StoreFault;
use acfg_base::OutOfMemory;
use acfg_commit::commit;
use acfg_device::Device;
use acfg_model::{Change, FlagKey, Refusal, Reply, place_of};
use std::alloc::Global;

impl Store {
    /// Changes the overrides of a container, unless the change is refused. The changed ones are written to the override
    /// slot that isn't named, and then the list is committed, which names it.
    ///
    /// # Errors
    ///
    /// `Device` where the outside failed, and `OutOfMemory` where an allocation was refused; then nothing is written.
    pub(crate) fn apply_change<D: Device>(
        self,
        alloc: Global,
        device: &mut D,
        name: &str,
        change: &Change<'_>,
    ) -> Result<(Store, Reply), StoreFault>
        requires { IsTrue D.tells → IsOpen (D.files device.old) self }
        ensures made { IfOk result (λ made. IsMade self (change_step false (state_in self) name.now change.now)
            made.0 made.1) }
        ensures open { IsTrue D.tells → IfOk result (λ made. IsOpen (D.files device.new) made.0) }
        ensures changes { OnlyChanges D.Panel (IsOfDirectory self.dir) device.old device.new
            (result ≡ Err StoreFault.Device) }
        ensures quiet { IfOk result (λ made. IsQuiet made.1 → OnlyReads D.Panel device.old device.new ⊥) }
        ensures memory { result ≡ Err StoreFault.OutOfMemory → OnlyReads D.Panel device.old device.new ⊥ }
        ensures fault { IfErr result IsOfCall }
        ensures cut { IsTrue D.tells → IsSettled (D.account device.old).now
            → LeavesSince (D.account device.old) (D.account device.new)
            (LeavesBetween (D.files device.old) (D.said device.old) self
            (change_step false (state_in self) name.now change.now).0) }
        ensures settled { IsTrue D.tells → IsSettled (D.account device.old).now
            → IfOk result (λ made. IsSettled (D.account device.new).now) }
    {
        let Store {
            dir,
            mut containers,
        } = self;
        match change_in(&mut containers, name, change) {
            Ok(at) => {
                let plan = plan_change(alloc, dir.as_str(), &containers, at)?;
                commit(
                    device,
                    plan.slot.as_slice(),
                    plan.beside.as_str(),
                    plan.list.as_str(),
                    plan.bytes.as_slice(),
                )?;
                Ok((Store { dir, containers }, Reply::Fine))
            }
            Err(refusal) => Ok((Store { dir, containers }, Reply::Refused(refusal.number()))),
        }
    }

    /// What a `get` of a flag replies, by the bytes that are kept of the container's boot copy. They are checked, and
    /// then the flag is looked up in them. No device is called.
    ///
    /// # Errors
    ///
    /// `OutOfMemory` where an allocation was refused.
    pub(crate) fn get(
        &self,
        alloc: Global,
        name: &str,
        package: &str,
        flag: &str,
    ) -> Result<Reply, OutOfMemory>
        ensures { IfOk result (λ reply. reply ≡ get_reply (state_in self.now) name.now («package».now, flag.now)) }
    {
        match place_of(&self.containers, name) {
            Ok(at) => {
                let one = &self.containers[at];
                let key = FlagKey::new(package, flag);
                reply_from(alloc, one, &key)
            }
            Err(_) => Ok(Reply::Refused(Refusal::UnknownContainer.number())),
        }
    }
}
