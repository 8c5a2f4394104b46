//! A container takes a release, and the files of its slots with it.

ghost use Rattle.std.specs.Prelude.{◌≡◌, ◌++◌, [], ◌∷◌, IfOk, OnOk, map};
ghost use Rattle.acfg_store.specs.Kept.{entry_of};
ghost use Rattle.acfg_store.specs.Names.{path};
ghost use Rattle.acfg_store.specs.Updated.{AreSlotFiles, IsIncoming, IsNew, IsReleaseOf, IsTaken, named};
ghost use Rattle.acfg_store.specs.Updated.{pair_of, release_parts};

use crate::containers::Kept;
use crate::marking::write_local;
use crate::names::{OverrideFile, Part, Slot, file_name};
use crate::stamping::{write_infos, write_values};
use acfg_base::{ContainerName, OutOfMemory, Release};
use acfg_commit::NewFile;
use acfg_images::{FileType, ImageSet};
use acfg_model::Container;
use std::alloc::{AllocError, Global};

/// What was loaded for an update: the files, their digest, the release that they hold, the global index of each of its
/// flags, and how many flags there are.
#[derive(Debug, Drop)]
pub(crate) struct Incoming {
    pub(crate) set: ImageSet,
    pub(crate) digest: [u8; 32],
    pub(crate) release: Release,
    pub(crate) indexes: Vec<u32>,
    pub(crate) count: u32,
}

/// The container takes a release. Its slots are the ones that weren't named, and it keeps the overrides of the flags
/// that are read-write in the release.
pub(crate) fn take_release(
    alloc: Global,
    kept: &mut Kept,
    incoming: Incoming,
) -> Result<(), AllocError>
    requires { IsIncoming kept.old.name incoming }
    ensures { OnOk result (IsTaken kept.old incoming kept.new) }
{
    let Incoming {
        set,
        digest,
        release,
        indexes,
        count,
    } = incoming;
    kept.container.set_release(alloc, digest, release)?;
    kept.release_slot = kept.release_slot.other();
    kept.override_slot = kept.override_slot.other();
    kept.release = set;
    kept.indexes = indexes;
    kept.count = count;
    Ok(())
}

/// A new container of a release.
pub(crate) fn new_container(
    alloc: Global,
    name: &ContainerName,
    incoming: Incoming,
) -> Result<Kept, AllocError>
    requires { IsIncoming name.now incoming }
    ensures { IfOk result (IsNew name.now incoming) }
{
    let Incoming {
        set,
        digest,
        release,
        indexes,
        count,
    } = incoming;
    let container = Container::new(alloc, digest, release)?;
    let name = name.clone()?;
    Ok(Kept {
        name,
        release_slot: Slot::Zero,
        override_slot: Slot::Zero,
        release: set,
        boot: None,
        container,
        indexes,
        count,
    })
}

/// The files of a container's slots.
pub(crate) fn write_slots(
    alloc: Global,
    dir: &str,
    kept: &Kept,
) -> Result<Vec<NewFile>, OutOfMemory>
    requires { IsReleaseOf kept.now }
    ensures { IfOk result (λ files. (is : IsReleaseOf kept.now)
        → AreSlotFiles dir.now (entry_of kept.now) kept.now.release is.parts files.items) }
{
    let rows = kept.container.rows();
    let indexes = kept.indexes.as_slice();
    let values = write_values(alloc, &kept.release, kept.count as usize, rows, indexes)?;
    let infos = write_infos(alloc, &kept.release, kept.count as usize, rows, indexes)?;
    let locals = write_local(alloc, kept.count, rows, indexes)?;
    let mut files = write_release(alloc, dir, kept)?;
    let name = kept.name.as_str();
    let slot = kept.override_slot;
    put_file(
        alloc,
        &mut files,
        dir,
        name,
        Part::Override(slot, OverrideFile::FlagVal),
        values,
    )?;
    put_file(
        alloc,
        &mut files,
        dir,
        name,
        Part::Override(slot, OverrideFile::FlagInfo),
        infos,
    )?;
    put_file(
        alloc,
        &mut files,
        dir,
        name,
        Part::Override(slot, OverrideFile::Local),
        locals,
    )?;
    Ok(files)
}

// The files of a container's release slot.
fn write_release(alloc: Global, dir: &str, kept: &Kept) -> Result<Vec<NewFile>, OutOfMemory>
    ensures { IfOk result (λ files. map pair_of files.items ≡ map (named dir.now kept.now.name)
        (release_parts kept.now.release_slot kept.now.release)) }
{
    let mut files = Vec::with_capacity(alloc, 7)?;
    let name = kept.name.as_str();
    let slot = kept.release_slot;
    let set = &kept.release;
    put_file(
        alloc,
        &mut files,
        dir,
        name,
        Part::Release(slot, FileType::PackageMap),
        set.package_map().to_vec(alloc)?,
    )?;
    put_file(
        alloc,
        &mut files,
        dir,
        name,
        Part::Release(slot, FileType::FlagMap),
        set.flag_map().to_vec(alloc)?,
    )?;
    put_file(
        alloc,
        &mut files,
        dir,
        name,
        Part::Release(slot, FileType::FlagVal),
        set.flag_val().to_vec(alloc)?,
    )?;
    put_file(
        alloc,
        &mut files,
        dir,
        name,
        Part::Release(slot, FileType::FlagInfo),
        set.flag_info().to_vec(alloc)?,
    )?;
    Ok(files)
}

// Puts a file behind the others.
fn put_file(
    alloc: Global,
    files: &mut Vec<NewFile>,
    dir: &str,
    container: &str,
    part: Part,
    bytes: Vec<u8>,
) -> Result<(), OutOfMemory>
    ensures { OnOk result (map pair_of files.new.items
        ≡ map pair_of files.old.items ++ (path dir.now container.now part, bytes.items) ∷ []) }
{
    let name = file_name(alloc, dir, container, part)?;
    files.push(NewFile { name, bytes })?;
    Ok(())
}
