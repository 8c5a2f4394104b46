//! The files of a container's named slots are read.

ghost use Rattle.std.specs.Prelude.{◌≡◌, Err, IfOk, IsTrue, option_map};
ghost use Rattle.acfg_device.specs.Only.{OnlyReads};
ghost use Rattle.acfg_store.specs.Damage.{boot_name, release_name};
ghost use Rattle.acfg_store.specs.Gathered.{AreContainerRead, AreOverridesRead, IsBootRead};
ghost use Rattle.acfg_store.specs.Judged.{AreReadAs};
ghost use Rattle.acfg_store.specs.Names.{path};
ghost use Rattle.acfg_store.specs.Over.{read_over};

use crate::boots::BootFiles;
use crate::containers::ContainerFiles;
use crate::names::{OverrideFile, Part, Slot, file_name};
use crate::pointer::read_pointer;
use crate::records::Recorded;
use crate::sets::SlotFiles;
use crate::slots::OverrideFiles;
use acfg_base::OutOfMemory;
use acfg_device::{Panel, ReadFault};
use acfg_images::FileType;
use std::alloc::Global;

/// A file of a device directory.
pub(crate) fn read_part<P: Panel>(
    alloc: Global,
    panel: &mut P,
    dir: &str,
    container: &str,
    part: Part,
) -> Result<Option<Vec<u8>>, ReadFault>
    ensures found { IsTrue P.tells → IfOk result (λ found. option_map (λ bytes. bytes.items) found
        ≡ P.files panel.old (path dir.now container.now part)) }
    ensures reads { OnlyReads P.Panel panel.old panel.new (result ≡ Err ReadFault.Failed) }
{
    match file_name(alloc, dir, container, part) {
        Ok(name) => panel.read(alloc, name.as_str()),
        Err(OutOfMemory) => Err(ReadFault::OutOfMemory),
    }
}

/// The files of the slots that a container names.
pub(crate) fn gather<P: Panel>(
    alloc: Global,
    panel: &mut P,
    dir: &str,
    row: &Recorded,
) -> Result<ContainerFiles, ReadFault>
    ensures read { IsTrue P.tells → IfOk result (AreContainerRead (P.files panel.old) dir.now row.now) }
    ensures reads { OnlyReads P.Panel panel.old panel.new (result ≡ Err ReadFault.Failed) }
{
    let release = gather_release(alloc, panel, dir, row)?;
    let overrides = gather_overrides(alloc, panel, dir, row)?;
    let boot = gather_boot(alloc, panel, dir, row)?;
    Ok(ContainerFiles {
        release,
        overrides,
        boot,
    })
}

fn gather_release<P: Panel>(
    alloc: Global,
    panel: &mut P,
    dir: &str,
    row: &Recorded,
) -> Result<SlotFiles, ReadFault>
    ensures read { IsTrue P.tells → IfOk result
        (AreReadAs (P.files panel.old) (release_name (P.files panel.old) dir.now row.now)) }
    ensures reads { OnlyReads P.Panel panel.old panel.new (result ≡ Err ReadFault.Failed) }
{
    let name = row.name.as_str();
    let slot = row.release;
    let package_map = read_part(
        alloc,
        panel,
        dir,
        name,
        Part::Release(slot, FileType::PackageMap),
    )?;
    let flag_map = read_part(
        alloc,
        panel,
        dir,
        name,
        Part::Release(slot, FileType::FlagMap),
    )?;
    let flag_val = read_part(
        alloc,
        panel,
        dir,
        name,
        Part::Release(slot, FileType::FlagVal),
    )?;
    let flag_info = read_part(
        alloc,
        panel,
        dir,
        name,
        Part::Release(slot, FileType::FlagInfo),
    )?;
    Ok(SlotFiles {
        package_map,
        flag_map,
        flag_val,
        flag_info,
    })
}

fn gather_overrides<P: Panel>(
    alloc: Global,
    panel: &mut P,
    dir: &str,
    row: &Recorded,
) -> Result<OverrideFiles, ReadFault>
    ensures read { IsTrue P.tells → IfOk result
        (λ read. AreOverridesRead (P.files panel.old) dir.now row.now (read_over read)) }
    ensures reads { OnlyReads P.Panel panel.old panel.new (result ≡ Err ReadFault.Failed) }
{
    let name = row.name.as_str();
    let slot = row.overrides;
    let values = read_part(
        alloc,
        panel,
        dir,
        name,
        Part::Override(slot, OverrideFile::FlagVal),
    )?;
    let infos = read_part(
        alloc,
        panel,
        dir,
        name,
        Part::Override(slot, OverrideFile::FlagInfo),
    )?;
    let locals = read_part(
        alloc,
        panel,
        dir,
        name,
        Part::Override(slot, OverrideFile::Local),
    )?;
    Ok(OverrideFiles {
        values,
        infos,
        locals,
    })
}

fn gather_boot<P: Panel>(
    alloc: Global,
    panel: &mut P,
    dir: &str,
    row: &Recorded,
) -> Result<BootFiles, ReadFault>
    ensures read { IsTrue P.tells → IfOk result (IsBootRead (P.files panel.old) dir.now row.now) }
    ensures reads { OnlyReads P.Panel panel.old panel.new (result ≡ Err ReadFault.Failed) }
{
    match read_part(alloc, panel, dir, row.name.as_str(), Part::Pointer)? {
        None => Ok(BootFiles::Absent),
        Some(bytes) => match read_pointer(&bytes) {
            None => Ok(BootFiles::Bad),
            Some(slot) => {
                let files = gather_copy(alloc, panel, dir, row, slot)?;
                Ok(BootFiles::Named(slot, files))
            }
        },
    }
}

fn gather_copy<P: Panel>(
    alloc: Global,
    panel: &mut P,
    dir: &str,
    row: &Recorded,
    slot: Slot,
) -> Result<SlotFiles, ReadFault>
    ensures read { IsTrue P.tells → IfOk result
        (AreReadAs (P.files panel.old) (boot_name (P.files panel.old) dir.now row.now slot)) }
    ensures reads { OnlyReads P.Panel panel.old panel.new (result ≡ Err ReadFault.Failed) }
{
    let name = row.name.as_str();
    let package_map = read_part(
        alloc,
        panel,
        dir,
        name,
        Part::Boot(slot, FileType::PackageMap),
    )?;
    let flag_map = read_part(alloc, panel, dir, name, Part::Boot(slot, FileType::FlagMap))?;
    let flag_val = read_part(alloc, panel, dir, name, Part::Boot(slot, FileType::FlagVal))?;
    let flag_info = read_part(
        alloc,
        panel,
        dir,
        name,
        Part::Boot(slot, FileType::FlagInfo),
    )?;
    Ok(SlotFiles {
        package_map,
        flag_map,
        flag_val,
        flag_info,
    })
}
