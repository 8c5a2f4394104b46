//! A container, made of what was read of its files.

ghost use Rattle.std.specs.Prelude.{◌≡◌, List, Option, ℕ};
ghost use Rattle.acfg_model.specs.FlagStates.{release_in};
ghost use Rattle.acfg_model.specs.State.{IsDigest};
ghost use Rattle.acfg_store.specs.declared.names.OverrideFile as overrides;
ghost use Rattle.acfg_store.specs.Gathered.{AreContainerRead};
ghost use Rattle.acfg_store.specs.Judged.{Judges};
ghost use Rattle.acfg_store.specs.Kept.{AreIndexesOf, AreRowsOf, IsFaultWhere, IsMadeWhere, OverridesStand};
ghost use Rattle.acfg_store.specs.Kept.{RowsStand, SetStands};
ghost use Rattle.acfg_store.specs.Over.{read_over};

use crate::boots::{BootFiles, Copied, judge_copy};
use crate::faults::{Fault, in_boot, in_overrides, in_release};
use crate::names::{Part, Slot};
use crate::placed::{flags_in, indexes_of};
use crate::records::Recorded;
use crate::sets::{SlotFiles, check_release, whole};
use crate::slots::{OverrideFiles, are_bytes, judge_overrides};
use acfg_base::ContainerName;
use acfg_images::ImageSet;
use acfg_model::{Container, FlagState};
use std::alloc::Global;

/// What was read of the files of a container's named slots.
#[derive(Debug, Drop)]
pub(crate) struct ContainerFiles {
    pub(crate) release: SlotFiles,
    pub(crate) overrides: OverrideFiles,
    pub(crate) boot: BootFiles,
}

/// A boot slot that is named, and the files in it.
#[derive(Debug, Drop)]
pub(crate) struct BootSlot {
    pub(crate) slot: Slot,
    pub(crate) set: ImageSet,
}

/// The flags of a release with their overrides, in order, the global index of each, and how many there are.
#[derive(Debug, Drop)]
pub(crate) struct Flags {
    pub(crate) rows: Vec<FlagState>,
    pub(crate) indexes: Vec<u32>,
    pub(crate) count: u32,
}

/// A container with its slots, the files of its release and of its boot copy, the global index of each flag, and how
/// many flags there are.
#[derive(Debug, Drop)]
pub(crate) struct Kept {
    pub(crate) name: ContainerName,
    pub(crate) release_slot: Slot,
    pub(crate) override_slot: Slot,
    pub(crate) release: ImageSet,
    pub(crate) boot: Option<BootSlot>,
    pub(crate) container: Container,
    pub(crate) indexes: Vec<u32>,
    pub(crate) count: u32,
}

/// The container that the files hold, or the first part of it that is at fault.
pub(crate) fn judge(
    alloc: Global,
    row: &Recorded,
    read: ContainerFiles,
) -> Result<Kept, Fault<Part>>
    requires { IsDigest row.now.digest }
    ensures { Judges (IsMadeWhere row.now (λ files dir. AreContainerRead files dir row.now read))
        (IsFaultWhere row.now (λ files dir. AreContainerRead files dir row.now read)) result }
{
    let ContainerFiles {
        release,
        overrides,
        boot,
    } = read;
    match whole(release) {
        Ok(set) => judge_set(alloc, row, set, overrides, boot),
        Err(file) => Err(Fault::At(Part::Release(row.release, file))),
    }
}

// The same, where the release's files are all there.
fn judge_set(
    alloc: Global,
    row: &Recorded,
    set: ImageSet,
    read: OverrideFiles,
    boot: BootFiles,
) -> Result<Kept, Fault<Part>>
    requires { IsDigest row.now.digest }
    ensures { Judges (IsMadeWhere row.now (SetStands row.now set (read_over read) boot))
        (IsFaultWhere row.now (SetStands row.now set (read_over read) boot)) result }
{
    are_bytes(&read);
    match list_rows(alloc, row, &set, &read) {
        Ok(flags) => judge_boot(alloc, row, set, flags, boot),
        Err(fault) => Err(fault),
    }
}

// The flags of a release with the overrides of a slot.
fn list_rows(
    alloc: Global,
    row: &Recorded,
    set: &ImageSet,
    read: &OverrideFiles,
) -> Result<Flags, Fault<Part>>
    ensures { Judges (λ flags. AreRowsOf row.now set.now (read_over read.now) flags.rows.items
        × AreIndexesOf set.now (release_in flags.rows.items) flags.indexes.items flags.count)
        (IsFaultWhere row.now (OverridesStand row.now set.now (read_over read.now))) result }
{
    let checked = match check_release(alloc, set, row) {
        Ok(checked) => checked,
        Err(fault) => return Err(in_release(row.release, fault)),
    };
    let flags = flags_in(alloc, &checked)?;
    let indexes = indexes_of(alloc, flags.as_slice())?;
    let count = checked.count();
    are_bytes(read);
    match judge_overrides(alloc, read, row.name.as_str(), count, flags) {
        Ok(rows) => Ok(Flags {
            rows,
            indexes,
            count,
        }),
        Err(fault) => Err(in_overrides(row.overrides, fault)),
    }
}

// The container of these rows, with its boot copy.
fn judge_boot(
    alloc: Global,
    row: &Recorded,
    set: ImageSet,
    flags: Flags,
    boot: BootFiles,
) -> Result<Kept, Fault<Part>>
    requires digest { IsDigest row.now.digest }
    requires rows { (held : overrides.OverrideFile → Option (List ℕ)) × AreRowsOf row.now set held flags.rows.items }
    requires indexes { AreIndexesOf set (release_in flags.rows.items) flags.indexes.items flags.count }
    ensures { Judges (IsMadeWhere row.now (RowsStand row.now set flags.rows.items boot))
        (IsFaultWhere row.now (RowsStand row.now set flags.rows.items boot)) result }
{
    let name = row.name.clone()?;
    match boot {
        BootFiles::Absent => Ok(Kept {
            name,
            release_slot: row.release,
            override_slot: row.overrides,
            release: set,
            boot: None,
            container: Container::kept(row.digest, flags.rows, None),
            indexes: flags.indexes,
            count: flags.count,
        }),
        BootFiles::Bad => Err(Fault::At(Part::Pointer)),
        BootFiles::Named(slot, files) => judge_named(alloc, row, name, set, flags, slot, files),
    }
}

// The same, where the pointer names a slot.
fn judge_named(
    alloc: Global,
    row: &Recorded,
    name: ContainerName,
    set: ImageSet,
    flags: Flags,
    slot: Slot,
    files: SlotFiles,
) -> Result<Kept, Fault<Part>>
    requires digest { IsDigest row.now.digest }
    requires name { name ≡ row.now.name }
    requires rows { (held : overrides.OverrideFile → Option (List ℕ)) × AreRowsOf row.now set held flags.rows.items }
    requires indexes { AreIndexesOf set (release_in flags.rows.items) flags.indexes.items flags.count }
    ensures { Judges (IsMadeWhere row.now (RowsStand row.now set flags.rows.items (BootFiles.Named slot files)))
        (IsFaultWhere row.now (RowsStand row.now set flags.rows.items (BootFiles.Named slot files))) result }
{
    match judge_copy(alloc, row.name.as_str(), files) {
        Ok(found) => {
            let Copied { set: copied, copy } = found;
            Ok(Kept {
                name,
                release_slot: row.release,
                override_slot: row.overrides,
                release: set,
                boot: Some(BootSlot { slot, set: copied }),
                container: Container::kept(row.digest, flags.rows, Some(copy)),
                indexes: flags.indexes,
                count: flags.count,
            })
        }
        Err(fault) => Err(in_boot(slot, fault)),
    }
}
