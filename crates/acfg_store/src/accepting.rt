//! An update as a whole: where the container stands, and what comes of it.

ghost use Rattle.std.specs.FinMap.{get};
ghost use Rattle.std.specs.Prelude.{◌≡◌, Err, IfErr, IfOk, IsTrue, Some};
ghost use Rattle.acfg_base.specs.Places.{StandsAt, WouldStandAt};
ghost use Rattle.acfg_device.specs.Disk.{IsSettled};
ghost use Rattle.acfg_device.specs.Left.{LeavesSince};
ghost use Rattle.acfg_device.specs.Only.{OnlyChanges, OnlyReads};
ghost use Rattle.acfg_model.specs.State.{name_cmp};
ghost use Rattle.acfg_model.specs.Step.{release_step, update_step};
ghost use Rattle.acfg_store.specs.Applied.{IsMade, IsOfCall, IsOpen, IsQuiet, LeavesBetween, state_in};
ghost use Rattle.acfg_store.specs.Kept.{kept_name};
ghost use Rattle.acfg_store.specs.Loading.{set_loads};
ghost use Rattle.acfg_store.specs.Names.{IsOfDirectory};
ghost use Rattle.acfg_store.specs.Opening.{AreKept};
ghost use Rattle.acfg_store.specs.Updated.{IsIncoming, outcome_of, view_of};

use crate::admitting::admit;
use crate::containers::Kept;
use crate::installing::Incoming;
use crate::store::Store;
use crate::store_fault::StoreFault;
use crate::updating::{update_known, update_new};
use acfg_base::ContainerName;
use acfg_device::Device;
use acfg_images::ImageSet;
use acfg_model::{Refusal, Reply, place_of};
use std::alloc::Global;

// How many containers a device has at most.
const MOST_CONTAINERS: usize = 256;

impl Store {
    /// Updates a container to the release in four files, or adds it. They are none where one of them isn't there. They
    /// are checked first, and are to be of that container.
    ///
    /// # Errors
    ///
    /// `Device` where the outside failed, and `OutOfMemory` where an allocation was refused; then nothing is written.
    pub(crate) fn update<D: Device>(
        self,
        alloc: Global,
        device: &mut D,
        name: &ContainerName,
        set: Option<ImageSet>,
    ) -> Result<(Store, Reply), StoreFault>
        requires { IsTrue D.tells → IsOpen (D.files device.old) self }
        ensures made { IfOk result (λ made. IsMade self
            (update_step (state_in self) name.now (Some (set_loads name.now set)))
            made.0 made.1) }
        ensures open { IsTrue D.tells → IfOk result (λ made. IsOpen (D.files device.new) made.0) }
        ensures changes { OnlyChanges D.Panel (IsOfDirectory self.dir) device.old device.new
            (result ≡ Err StoreFault.Device) }
        ensures quiet { IfOk result (λ made. IsQuiet made.1 → OnlyReads D.Panel device.old device.new ⊥) }
        ensures memory { result ≡ Err StoreFault.OutOfMemory → OnlyReads D.Panel device.old device.new ⊥ }
        ensures fault { IfErr result IsOfCall }
        ensures cut { IsTrue D.tells → IsSettled (D.account device.old).now
            → LeavesSince (D.account device.old) (D.account device.new)
            (LeavesBetween (D.files device.old) (D.said device.old) self
            (update_step (state_in self) name.now (Some (set_loads name.now set))).0) }
        ensures settled { IsTrue D.tells → IsSettled (D.account device.old).now
            → IfOk result (λ made. IsSettled (D.account device.new).now) }
    {
        match set {
            Some(set) => self.update_by(alloc, device, name, set),
            None => Ok((self, Reply::Refused(Refusal::MissingFile.number()))),
        }
    }

    // The same of four files.
    fn update_by<D: Device>(
        self,
        alloc: Global,
        device: &mut D,
        name: &ContainerName,
        set: ImageSet,
    ) -> Result<(Store, Reply), StoreFault>
        requires { IsTrue D.tells → IsOpen (D.files device.old) self }
        ensures made { IfOk result (λ made. IsMade self
            (update_step (state_in self) name.now (Some (set_loads name.now (Some set))))
            made.0 made.1) }
        ensures open { IsTrue D.tells → IfOk result (λ made. IsOpen (D.files device.new) made.0) }
        ensures changes { OnlyChanges D.Panel (IsOfDirectory self.dir) device.old device.new
            (result ≡ Err StoreFault.Device) }
        ensures quiet { IfOk result (λ made. IsQuiet made.1 → OnlyReads D.Panel device.old device.new ⊥) }
        ensures memory { result ≡ Err StoreFault.OutOfMemory → OnlyReads D.Panel device.old device.new ⊥ }
        ensures fault { IfErr result IsOfCall }
        ensures cut { IsTrue D.tells → IsSettled (D.account device.old).now
            → LeavesSince (D.account device.old) (D.account device.new)
            (LeavesBetween (D.files device.old) (D.said device.old) self
            (update_step (state_in self) name.now (Some (set_loads name.now (Some set)))).0) }
        ensures settled { IsTrue D.tells → IsSettled (D.account device.old).now
            → IfOk result (λ made. IsSettled (D.account device.new).now) }
    {
        match admit(alloc, name, set)? {
            Ok(incoming) => self.take(alloc, device, name, incoming),
            Err(refusal) => Ok((self, Reply::Refused(refusal.number()))),
        }
    }

    // Updates a container to a release, or adds it.
    fn take<D: Device>(
        self,
        alloc: Global,
        device: &mut D,
        name: &ContainerName,
        incoming: Incoming,
    ) -> Result<(Store, Reply), StoreFault>
        requires incoming { IsIncoming name.now incoming }
        requires open { IsTrue D.tells → IsOpen (D.files device.old) self }
        ensures made { IfOk result (λ made. IsMade self
            (release_step (state_in self) name.now incoming.digest incoming.release (get (state_in self) name.now))
            made.0 made.1) }
        ensures open { IsTrue D.tells → IfOk result (λ made. IsOpen (D.files device.new) made.0) }
        ensures changes { OnlyChanges D.Panel (IsOfDirectory self.dir) device.old device.new
            (result ≡ Err StoreFault.Device) }
        ensures quiet { IfOk result (λ made. IsQuiet made.1 → OnlyReads D.Panel device.old device.new ⊥) }
        ensures memory { result ≡ Err StoreFault.OutOfMemory → OnlyReads D.Panel device.old device.new ⊥ }
        ensures fault { IfErr result IsOfCall }
        ensures cut { IsTrue D.tells → IsSettled (D.account device.old).now
            → LeavesSince (D.account device.old) (D.account device.new)
            (LeavesBetween (D.files device.old) (D.said device.old) self
            (release_step (state_in self) name.now incoming.digest incoming.release (get (state_in self) name.now)).0) }
        ensures settled { IsTrue D.tells → IsSettled (D.account device.old).now
            → IfOk result (λ made. IsSettled (D.account device.new).now) }
    {
        let Store { dir, containers } = self;
        let (containers, reply) = update(alloc, device, dir.as_str(), containers, name, incoming)?;
        Ok((Store { dir, containers }, reply))
    }
}

/// Updates a container to a release, or adds it. A release of the digest that is kept changes nothing, and a container
/// more than fit is refused.
pub(crate) fn update<D: Device>(
    alloc: Global,
    device: &mut D,
    dir: &str,
    kept: Vec<Kept>,
    name: &ContainerName,
    incoming: Incoming,
) -> Result<(Vec<Kept>, Reply), StoreFault>
    requires kept { AreKept kept.items }
    requires incoming { IsIncoming name.now incoming }
    requires open { IsTrue D.tells → IsOpen (D.files device.old) (view_of dir.now kept.items) }
    ensures kept { IfOk result (λ made. AreKept made.0.items) }
    ensures made { IfOk result (λ made. IsMade (view_of dir.now kept.items)
        (outcome_of kept.items name.now incoming) (view_of dir.now made.0.items) made.1) }
    ensures open { IsTrue D.tells → IfOk result (λ made. IsOpen (D.files device.new) (view_of dir.now made.0.items)) }
    ensures changes { OnlyChanges D.Panel (IsOfDirectory dir.now) device.old device.new
        (result ≡ Err StoreFault.Device) }
    ensures quiet { IfOk result (λ made. IsQuiet made.1 → OnlyReads D.Panel device.old device.new ⊥) }
    ensures memory { result ≡ Err StoreFault.OutOfMemory → OnlyReads D.Panel device.old device.new ⊥ }
    ensures fault { IfErr result IsOfCall }
    ensures cut { IsTrue D.tells → IsSettled (D.account device.old).now
        → LeavesSince (D.account device.old) (D.account device.new)
        (LeavesBetween (D.files device.old) (D.said device.old) (view_of dir.now kept.items)
        (outcome_of kept.items name.now incoming).0) }
    ensures settled { IsTrue D.tells → IsSettled (D.account device.old).now
        → IfOk result (λ _. IsSettled (D.account device.new).now) }
{
    match place_of(&kept, name.as_str()) {
        Ok(at) => update_there(alloc, device, dir, kept, name, at, incoming),
        Err(at) => update_absent(alloc, device, dir, kept, name, at, incoming),
    }
}

// The same of a container that is there.
fn update_there<D: Device>(
    alloc: Global,
    device: &mut D,
    dir: &str,
    kept: Vec<Kept>,
    name: &ContainerName,
    at: usize,
    incoming: Incoming,
) -> Result<(Vec<Kept>, Reply), StoreFault>
    requires kept { AreKept kept.items }
    requires stands { StandsAt name_cmp kept_name kept.items name.now at }
    requires incoming { IsIncoming name.now incoming }
    requires open { IsTrue D.tells → IsOpen (D.files device.old) (view_of dir.now kept.items) }
    ensures kept { IfOk result (λ made. AreKept made.0.items) }
    ensures made { IfOk result (λ made. IsMade (view_of dir.now kept.items)
        (outcome_of kept.items name.now incoming) (view_of dir.now made.0.items) made.1) }
    ensures open { IsTrue D.tells → IfOk result (λ made. IsOpen (D.files device.new) (view_of dir.now made.0.items)) }
    ensures changes { OnlyChanges D.Panel (IsOfDirectory dir.now) device.old device.new
        (result ≡ Err StoreFault.Device) }
    ensures quiet { IfOk result (λ made. IsQuiet made.1 → OnlyReads D.Panel device.old device.new ⊥) }
    ensures memory { result ≡ Err StoreFault.OutOfMemory → OnlyReads D.Panel device.old device.new ⊥ }
    ensures fault { IfErr result IsOfCall }
    ensures cut { IsTrue D.tells → IsSettled (D.account device.old).now
        → LeavesSince (D.account device.old) (D.account device.new)
        (LeavesBetween (D.files device.old) (D.said device.old) (view_of dir.now kept.items)
        (outcome_of kept.items name.now incoming).0) }
    ensures settled { IsTrue D.tells → IsSettled (D.account device.old).now
        → IfOk result (λ _. IsSettled (D.account device.new).now) }
{
    if kept[at].container.digest() == incoming.digest {
        return Ok((kept, Reply::Unchanged));
    }
    update_known(alloc, device, dir, kept, name, at, incoming)
}

// The same of a container that isn't there.
fn update_absent<D: Device>(
    alloc: Global,
    device: &mut D,
    dir: &str,
    kept: Vec<Kept>,
    name: &ContainerName,
    at: usize,
    incoming: Incoming,
) -> Result<(Vec<Kept>, Reply), StoreFault>
    requires kept { AreKept kept.items }
    requires gap { WouldStandAt name_cmp kept_name kept.items name.now at }
    requires incoming { IsIncoming name.now incoming }
    requires open { IsTrue D.tells → IsOpen (D.files device.old) (view_of dir.now kept.items) }
    ensures kept { IfOk result (λ made. AreKept made.0.items) }
    ensures made { IfOk result (λ made. IsMade (view_of dir.now kept.items)
        (outcome_of kept.items name.now incoming) (view_of dir.now made.0.items) made.1) }
    ensures open { IsTrue D.tells → IfOk result (λ made. IsOpen (D.files device.new) (view_of dir.now made.0.items)) }
    ensures changes { OnlyChanges D.Panel (IsOfDirectory dir.now) device.old device.new
        (result ≡ Err StoreFault.Device) }
    ensures quiet { IfOk result (λ made. IsQuiet made.1 → OnlyReads D.Panel device.old device.new ⊥) }
    ensures memory { result ≡ Err StoreFault.OutOfMemory → OnlyReads D.Panel device.old device.new ⊥ }
    ensures fault { IfErr result IsOfCall }
    ensures cut { IsTrue D.tells → IsSettled (D.account device.old).now
        → LeavesSince (D.account device.old) (D.account device.new)
        (LeavesBetween (D.files device.old) (D.said device.old) (view_of dir.now kept.items)
        (outcome_of kept.items name.now incoming).0) }
    ensures settled { IsTrue D.tells → IsSettled (D.account device.old).now
        → IfOk result (λ _. IsSettled (D.account device.new).now) }
{
    if kept.as_slice().len() >= MOST_CONTAINERS {
        return Ok((kept, Reply::Refused(Refusal::TooManyContainers.number())));
    }
    update_new(alloc, device, dir, kept, name, at, incoming)
}
