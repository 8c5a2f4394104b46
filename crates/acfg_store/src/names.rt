//! The names of a device directory's files.

ghost use Rattle.std.specs.Prelude.{◌≡◌, IfOk, string_bytes};
ghost use Rattle.acfg_store.specs.Names.{ending, override_name, image_name, path, release_ending, override_ending};
ghost use Rattle.acfg_store.specs.Names.{boot_ending};

use acfg_base::OutOfMemory;
use acfg_images::FileType;
use std::alloc::Global;

/// One of the two places that a container has for files of a kind. One of them is named; what the other holds is free.
#[derive(Clone, Copy, Debug, PartialEq, Eq)]
pub enum Slot {
    Zero,
    One,
}

/// A file of an override slot.
#[derive(Clone, Copy, Debug, PartialEq, Eq)]
pub enum OverrideFile {
    /// A release's values, with the server's overrides in them.
    FlagVal,
    /// A release's bits, with a note of each server override.
    FlagInfo,
    /// The local overrides.
    Local,
    /// The changes since these files were written.
    Log,
}

/// A file of a device directory. All but the first two are a container's.
#[derive(Clone, Copy, Debug, PartialEq, Eq)]
pub enum Part {
    /// The list of the containers.
    Records,
    /// The same, before it is renamed.
    NewRecords,
    /// A file of a release slot.
    Release(Slot, FileType),
    /// A file of an override slot.
    Override(Slot, OverrideFile),
    /// The boot pointer, which names a boot slot.
    Pointer,
    /// The same, before it is renamed.
    NewPointer,
    /// A file of a boot slot.
    Boot(Slot, FileType),
}

/// The name of a file: the directory, `/`, the container and the part's ending. `records` and `records.new` are of no
/// container, so theirs is the empty text.
///
/// # Errors
///
/// An allocation was refused.
pub fn file_name(
    alloc: Global,
    dir: &str,
    container: &str,
    part: Part,
) -> Result<String, OutOfMemory>
    ensures { IfOk result (λ name. string_bytes name ≡ path dir.now container.now part) }
{
    let ending = ending_of(part);
    let name = format!(in alloc; "{dir}/{container}{ending}")?;
    Ok(name)
}

fn ending_of(part: Part) -> &'static str
    ensures { result.now ≡ ending part }
{
    match part {
        Part::Records => "records",
        Part::NewRecords => "records.new",
        Part::Release(slot, file) => ending_of_release(slot, file),
        Part::Override(slot, file) => ending_of_overrides(slot, file),
        Part::Pointer => "-boot",
        Part::NewPointer => "-boot.new",
        Part::Boot(slot, file) => ending_of_boot(slot, file),
    }
}

fn ending_of_release(slot: Slot, file: FileType) -> &'static str
    ensures { result.now ≡ release_ending slot file }
{
    match slot {
        Slot::Zero => match file {
            FileType::PackageMap => "-r0-package.map",
            FileType::FlagMap => "-r0-flag.map",
            FileType::FlagVal => "-r0-flag.val",
            FileType::FlagInfo => "-r0-flag.info",
        },
        Slot::One => match file {
            FileType::PackageMap => "-r1-package.map",
            FileType::FlagMap => "-r1-flag.map",
            FileType::FlagVal => "-r1-flag.val",
            FileType::FlagInfo => "-r1-flag.info",
        },
    }
}

fn ending_of_overrides(slot: Slot, file: OverrideFile) -> &'static str
    ensures { result.now ≡ override_ending slot file }
{
    match slot {
        Slot::Zero => match file {
            OverrideFile::FlagVal => "-o0-flag.val",
            OverrideFile::FlagInfo => "-o0-flag.info",
            OverrideFile::Local => "-o0-local",
            OverrideFile::Log => "-o0-log",
        },
        Slot::One => match file {
            OverrideFile::FlagVal => "-o1-flag.val",
            OverrideFile::FlagInfo => "-o1-flag.info",
            OverrideFile::Local => "-o1-local",
            OverrideFile::Log => "-o1-log",
        },
    }
}

fn ending_of_boot(slot: Slot, file: FileType) -> &'static str
    ensures { result.now ≡ boot_ending slot file }
{
    match slot {
        Slot::Zero => match file {
            FileType::PackageMap => "-b0-package.map",
            FileType::FlagMap => "-b0-flag.map",
            FileType::FlagVal => "-b0-flag.val",
            FileType::FlagInfo => "-b0-flag.info",
        },
        Slot::One => match file {
            FileType::PackageMap => "-b1-package.map",
            FileType::FlagMap => "-b1-flag.map",
            FileType::FlagVal => "-b1-flag.val",
            FileType::FlagInfo => "-b1-flag.info",
        },
    }
}
