//! What a change of overrides writes: the slot of one container, and the list of all. All memory is taken here.

ghost use Rattle.std.specs.Prelude.{◌≡◌, ◌<◌, IfOk, length, string_bytes};
ghost use Rattle.acfg_store.specs.declared.names.Part.TheVariants as part;
ghost use Rattle.acfg_store.specs.Kept.{IsIndexed};
ghost use Rattle.acfg_store.specs.Names.{path};
ghost use Rattle.acfg_store.specs.Opening.{AreKept};
ghost use Rattle.acfg_store.specs.Planned.{AreSlotFiles, IsPlanned};

use crate::containers::Kept;
use crate::marking::write_local;
use crate::names::{OverrideFile, Part, file_name};
use crate::stamping::{write_infos, write_values};
use crate::turning::write_listed;
use acfg_base::OutOfMemory;
use acfg_commit::NewFile;
use std::alloc::Global;

/// The files of an override slot, and the list that names it.
#[derive(Drop)]
pub(crate) struct Plan {
    pub(crate) slot: Vec<NewFile>,
    /// The second name of the list.
    pub(crate) beside: String,
    pub(crate) list: String,
    pub(crate) bytes: Vec<u8>,
}

/// What has to be written so that the directory holds these containers, where the one at a place is changed.
pub(crate) fn plan_change(
    alloc: Global,
    dir: &str,
    kept: &[Kept],
    at: usize,
) -> Result<Plan, OutOfMemory>
    requires kept { AreKept kept.now }
    requires within { at < length kept.now }
    ensures { IfOk result (IsPlanned dir.now kept.now at) }
{
    let slot = write_slot(alloc, dir, &kept[at])?;
    let beside = file_name(alloc, dir, "", Part::NewRecords)?;
    let list = file_name(alloc, dir, "", Part::Records)?;
    let bytes = write_listed(alloc, kept)?;
    Ok(Plan {
        slot,
        beside,
        list,
        bytes,
    })
}

// The files of a container's override slot.
fn write_slot(alloc: Global, dir: &str, one: &Kept) -> Result<Vec<NewFile>, OutOfMemory>
    requires { IsIndexed one.now }
    ensures { IfOk result (λ files. AreSlotFiles dir.now one.now files.items) }
{
    let rows = one.container.rows();
    let indexes = one.indexes.as_slice();
    let values = write_values(alloc, &one.release, one.count as usize, rows, indexes)?;
    let infos = write_infos(alloc, &one.release, one.count as usize, rows, indexes)?;
    let locals = write_local(alloc, one.count, rows, indexes)?;
    let values = slot_file(alloc, dir, one, OverrideFile::FlagVal, values)?;
    let infos = slot_file(alloc, dir, one, OverrideFile::FlagInfo, infos)?;
    let locals = slot_file(alloc, dir, one, OverrideFile::Local, locals)?;
    Ok(Vec::from_array(alloc, [values, infos, locals])?)
}

// A file of a container's override slot.
fn slot_file(
    alloc: Global,
    dir: &str,
    one: &Kept,
    file: OverrideFile,
    bytes: Vec<u8>,
) -> Result<NewFile, OutOfMemory>
    ensures named { IfOk result (λ made. string_bytes made.name
        ≡ path dir.now one.now.name (part.Override one.now.override_slot file)) }
    ensures bytes { IfOk result (λ made. made.bytes.items ≡ bytes.items) }
{
    let name = file_name(
        alloc,
        dir,
        one.name.as_str(),
        Part::Override(one.override_slot, file),
    )?;
    Ok(NewFile { name, bytes })
}
