//! An update of a container: all memory is taken, then the slots are written, and then the list that names them.

ghost use Rattle.std.specs.Prelude.{◌≡◌, Err, IfErr, IfOk, IsTrue, ◌<◌, false, length, slice_index_or};
ghost use Rattle.std.specs.Str.{bytes_eq};
ghost use Rattle.acfg_base.specs.Places.{StandsAt, WouldStandAt};
ghost use Rattle.acfg_device.specs.Disk.{IsSettled};
ghost use Rattle.acfg_device.specs.Left.{LeavesSince};
ghost use Rattle.acfg_device.specs.Only.{OnlyChanges, OnlyReads};
ghost use Rattle.acfg_model.specs.State.{most_containers, name_cmp};
ghost use Rattle.acfg_store.specs.Applied.{IsMade, IsOfCall, IsOpen, IsQuiet, LeavesBetween};
ghost use Rattle.acfg_store.specs.Kept.{kept_name};
ghost use Rattle.acfg_store.specs.Names.{IsOfDirectory};
ghost use Rattle.acfg_store.specs.Opening.{AreKept};
ghost use Rattle.acfg_store.specs.Updated.{AreWrites, IsIncoming, IsReleaseOf, outcome_of, view_of};

use crate::containers::Kept;
use crate::installing::{Incoming, new_container, take_release, write_slots};
use crate::names::{Part, file_name};
use crate::store_fault::StoreFault;
use crate::turning::write_listed;
use acfg_base::{ContainerName, OutOfMemory};
use acfg_commit::{NewFile, commit, remove_synced};
use acfg_device::Device;
use acfg_model::Reply;
use std::alloc::Global;

/// What an update writes: the files of two slots, and the list that names them.
#[derive(Drop)]
pub(crate) struct Writes {
    pub(crate) slots: Vec<NewFile>,
    /// The second name of the list.
    pub(crate) beside: String,
    pub(crate) list: String,
    pub(crate) bytes: Vec<u8>,
}

/// What has to be written so that the directory holds these containers, where this one of them has new slots.
pub(crate) fn plan(
    alloc: Global,
    dir: &str,
    kept: &[Kept],
    one: &Kept,
) -> Result<Writes, OutOfMemory>
    requires kept { AreKept kept.now }
    requires release { IsReleaseOf one.now }
    ensures { IfOk result (AreWrites dir.now kept.now one.now) }
{
    let slots = write_slots(alloc, dir, one)?;
    let beside = file_name(alloc, dir, "", Part::NewRecords)?;
    let list = file_name(alloc, dir, "", Part::Records)?;
    let bytes = write_listed(alloc, kept)?;
    Ok(Writes {
        slots,
        beside,
        list,
        bytes,
    })
}

/// Updates the container at a place to a release of another digest.
pub(crate) fn update_known<D: Device>(
    alloc: Global,
    device: &mut D,
    dir: &str,
    mut kept: Vec<Kept>,
    name: &ContainerName,
    at: usize,
    incoming: Incoming,
) -> Result<(Vec<Kept>, Reply), StoreFault>
    requires kept { AreKept kept.items }
    requires stands { StandsAt name_cmp kept_name kept.items name.now at }
    requires other { (d : Kept) → bytes_eq (slice_index_or kept.items at d).container.digest incoming.digest ≡ false }
    requires incoming { IsIncoming name.now incoming }
    requires open { IsTrue D.tells → IsOpen (D.files device.old) (view_of dir.now kept.items) }
    ensures kept { IfOk result (λ made. AreKept made.0.items) }
    ensures made { IfOk result (λ made. IsMade (view_of dir.now kept.items)
        (outcome_of kept.items name.now incoming) (view_of dir.now made.0.items) made.1) }
    ensures open { IsTrue D.tells → IfOk result (λ made. IsOpen (D.files device.new) (view_of dir.now made.0.items)) }
    ensures changes { OnlyChanges D.Panel (IsOfDirectory dir.now) device.old device.new
        (result ≡ Err StoreFault.Device) }
    ensures updated { IfOk result (λ made. IsQuiet made.1 → ⊥) }
    ensures memory { result ≡ Err StoreFault.OutOfMemory → OnlyReads D.Panel device.old device.new ⊥ }
    ensures fault { IfErr result IsOfCall }
    ensures cut { IsTrue D.tells → IsSettled (D.account device.old).now
        → LeavesSince (D.account device.old) (D.account device.new)
        (LeavesBetween (D.files device.old) (D.said device.old) (view_of dir.now kept.items)
        (outcome_of kept.items name.now incoming).0) }
    ensures settled { IsTrue D.tells → IsSettled (D.account device.old).now
        → IfOk result (λ _. IsSettled (D.account device.new).now) }
{
    let digest = incoming.digest;
    let count = incoming.release.len() as u32;
    take_release(alloc, &mut kept[at], incoming)?;
    let writes = plan(alloc, dir, &kept, &kept[at])?;
    commit(
        device,
        writes.slots.as_slice(),
        writes.beside.as_str(),
        writes.list.as_str(),
        writes.bytes.as_slice(),
    )?;
    Ok((kept, Reply::Updated(digest, count)))
}

/// Adds a container of a release. A boot pointer of its name, which was free until now, is removed first.
pub(crate) fn update_new<D: Device>(
    alloc: Global,
    device: &mut D,
    dir: &str,
    mut kept: Vec<Kept>,
    name: &ContainerName,
    at: usize,
    incoming: Incoming,
) -> Result<(Vec<Kept>, Reply), StoreFault>
    requires kept { AreKept kept.items }
    requires gap { WouldStandAt name_cmp kept_name kept.items name.now at }
    requires room { length kept.items < most_containers }
    requires incoming { IsIncoming name.now incoming }
    requires open { IsTrue D.tells → IsOpen (D.files device.old) (view_of dir.now kept.items) }
    ensures kept { IfOk result (λ made. AreKept made.0.items) }
    ensures made { IfOk result (λ made. IsMade (view_of dir.now kept.items)
        (outcome_of kept.items name.now incoming) (view_of dir.now made.0.items) made.1) }
    ensures open { IsTrue D.tells → IfOk result (λ made. IsOpen (D.files device.new) (view_of dir.now made.0.items)) }
    ensures changes { OnlyChanges D.Panel (IsOfDirectory dir.now) device.old device.new
        (result ≡ Err StoreFault.Device) }
    ensures updated { IfOk result (λ made. IsQuiet made.1 → ⊥) }
    ensures memory { result ≡ Err StoreFault.OutOfMemory → OnlyReads D.Panel device.old device.new ⊥ }
    ensures fault { IfErr result IsOfCall }
    ensures cut { IsTrue D.tells → IsSettled (D.account device.old).now
        → LeavesSince (D.account device.old) (D.account device.new)
        (LeavesBetween (D.files device.old) (D.said device.old) (view_of dir.now kept.items)
        (outcome_of kept.items name.now incoming).0) }
    ensures settled { IsTrue D.tells → IsSettled (D.account device.old).now
        → IfOk result (λ _. IsSettled (D.account device.new).now) }
{
    let digest = incoming.digest;
    let count = incoming.release.len() as u32;
    let pointer = file_name(alloc, dir, name.as_str(), Part::Pointer)?;
    let one = new_container(alloc, name, incoming)?;
    kept.insert(at, one)?;
    let writes = plan(alloc, dir, &kept, &kept[at])?;
    remove_synced(device, pointer.as_str())?;
    commit(
        device,
        writes.slots.as_slice(),
        writes.beside.as_str(),
        writes.list.as_str(),
        writes.bytes.as_slice(),
    )?;
    Ok((kept, Reply::Updated(digest, count)))
}
