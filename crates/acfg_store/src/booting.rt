//! What is written of one container's boot copy: its files in the slot that isn't named, and the pointer to it. All
//! memory is taken here.

ghost use Rattle.std.specs.Prelude.{◌≡◌, IfOk, IsSome, option_map, string_bytes};
ghost use Rattle.std.specs.FinMap.{get};
ghost use Rattle.acfg_model.specs.State.{IsValidContainer};
ghost use Rattle.acfg_model.specs.Step.{IsRenewable};
ghost use Rattle.acfg_store.specs.BootPlans.{AreBootFiles, IsBootPlan, IsCopyPlan, IsFile, IsRenewalPlan};
ghost use Rattle.acfg_store.specs.BootPlans.{spare_slot};
ghost use Rattle.acfg_store.specs.Kept.{IsCopied, IsIndexed};
ghost use Rattle.acfg_store.specs.Names.{path};

use crate::containers::{BootSlot, Kept};
use crate::copying::copy_set;
use crate::names::{Part, Slot, file_name};
use crate::pointer::write_pointer;
use crate::renewing::renew_copy;
use acfg_base::OutOfMemory;
use acfg_commit::NewFile;
use acfg_images::{FileType, ImageSet};
use acfg_model::{BootCopy, FlagKey};
use std::alloc::Global;

/// The files of a boot slot, the pointer that names it, and what is kept of them.
#[derive(Drop)]
pub(crate) struct CopyPlan {
    pub(crate) files: Vec<NewFile>,
    /// The second name of the pointer.
    pub(crate) beside: String,
    pub(crate) pointer: String,
    pub(crate) bytes: Vec<u8>,
    pub(crate) boot: BootSlot,
}

/// What a boot writes, and the boot copy that it makes.
#[derive(Drop)]
pub(crate) struct BootPlan {
    pub(crate) writes: CopyPlan,
    pub(crate) copy: BootCopy,
}

/// What has to be written so that the directory holds a container as a boot leaves it.
pub(crate) fn plan_boot(alloc: Global, dir: &str, one: &Kept) -> Result<BootPlan, OutOfMemory>
    requires indexed { IsIndexed one.now }
    requires valid { IsValidContainer one.now.container }
    ensures { IfOk result (IsBootPlan dir.now one.now) }
{
    let rows = one.container.rows();
    let set = copy_set(
        alloc,
        &one.release,
        one.count as usize,
        rows,
        one.indexes.as_slice(),
    )?;
    let copy = one.container.boot_copy(alloc)?;
    let writes = plan_copy(alloc, dir, one.name.as_str(), &one.boot, set)?;
    Ok(BootPlan { writes, copy })
}

/// What has to be written so that the directory holds a container with one flag anew in its boot copy.
pub(crate) fn plan_renewal(
    alloc: Global,
    dir: &str,
    one: &Kept,
    key: &FlagKey<'_>,
) -> Result<CopyPlan, OutOfMemory>
    requires booted { IsSome one.now.container.boot }
    requires copied { IsCopied one.now }
    requires renewable { IsRenewable one.now.container.boot key.now }
    requires released { IsSome (get one.now.container.release key.now) }
    ensures { IfOk result (IsRenewalPlan dir.now one.now key.now) }
{
    match &one.boot {
        Some(was) => {
            let set = renew_copy(alloc, &was.set, &one.container, key)?;
            plan_copy(alloc, dir, one.name.as_str(), &one.boot, set)
        }
        None => unreachable!(),
    }
}

// The files of a set in the boot slot that isn't named, and the pointer to it.
fn plan_copy(
    alloc: Global,
    dir: &str,
    name: &str,
    named: &Option<BootSlot>,
    set: ImageSet,
) -> Result<CopyPlan, OutOfMemory>
    ensures set { IfOk result (λ plan. plan.boot.set ≡ set) }
    ensures plan { IfOk result (IsCopyPlan dir.now name.now (option_map (λ boot. boot.slot) named.now)) }
{
    let slot = spare(named);
    let files = boot_files(alloc, dir, name, slot, &set)?;
    let beside = file_name(alloc, dir, name, Part::NewPointer)?;
    let pointer = file_name(alloc, dir, name, Part::Pointer)?;
    let bytes = write_pointer(alloc, slot)?;
    Ok(CopyPlan {
        files,
        beside,
        pointer,
        bytes,
        boot: BootSlot { slot, set },
    })
}

// The slot to which a boot writes.
fn spare(boot: &Option<BootSlot>) -> Slot
    ensures { result ≡ spare_slot (option_map (λ boot. boot.slot) boot.now) }
{
    match boot {
        Some(named) => named.slot.other(),
        None => Slot::Zero,
    }
}

// The files of a boot slot.
fn boot_files(
    alloc: Global,
    dir: &str,
    name: &str,
    slot: Slot,
    set: &ImageSet,
) -> Result<Vec<NewFile>, OutOfMemory>
    ensures { IfOk result (λ files. AreBootFiles dir.now name.now slot set.now files.items) }
{
    let package_map = boot_file(
        alloc,
        dir,
        name,
        Part::Boot(slot, FileType::PackageMap),
        set.package_map(),
    )?;
    let flag_map = boot_file(
        alloc,
        dir,
        name,
        Part::Boot(slot, FileType::FlagMap),
        set.flag_map(),
    )?;
    let values = boot_file(
        alloc,
        dir,
        name,
        Part::Boot(slot, FileType::FlagVal),
        set.flag_val(),
    )?;
    let infos = boot_file(
        alloc,
        dir,
        name,
        Part::Boot(slot, FileType::FlagInfo),
        set.flag_info(),
    )?;
    Ok(Vec::from_array(alloc, [package_map, flag_map, values, infos])?)
}

fn boot_file(
    alloc: Global,
    dir: &str,
    name: &str,
    part: Part,
    bytes: &[u8],
) -> Result<NewFile, OutOfMemory>
    ensures { IfOk result (IsFile (path dir.now name.now part) bytes.now) }
{
    let name = file_name(alloc, dir, name, part)?;
    let bytes = bytes.to_vec(alloc)?;
    Ok(NewFile { name, bytes })
}
