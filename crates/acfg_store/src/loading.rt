//! What an update loads: the four files of a folder.

ghost use Rattle.std.specs.Prelude.{◌≡◌, Err, IfOk, IsTrue, option_map, string_bytes};
ghost use Rattle.acfg_device.specs.Only.{OnlyReads};
ghost use Rattle.acfg_store.specs.Loading.{set_in, set_of as all_of};
ghost use Rattle.acfg_store.specs.Names.{image_name, source_path};

use acfg_device::{Panel, ReadFault};
use acfg_images::{FileType, ImageSet};
use std::alloc::{AllocError, Global};

/// The set in a folder, where all four of its files are there. They are all read before any of them is judged.
///
/// # Errors
///
/// `Failed` where the outside failed, and `OutOfMemory` where an allocation was refused.
pub(crate) fn read_folder<P: Panel>(
    alloc: Global,
    panel: &mut P,
    folder: &str,
) -> Result<Option<ImageSet>, ReadFault>
    ensures found { IsTrue P.tells → IfOk result (λ found. found ≡ set_in (P.files panel.old) folder.now) }
    ensures reads { OnlyReads P.Panel panel.old panel.new (result ≡ Err ReadFault.Failed) }
{
    let package_map = read_source(alloc, panel, folder, FileType::PackageMap)?;
    let flag_map = read_source(alloc, panel, folder, FileType::FlagMap)?;
    let flag_val = read_source(alloc, panel, folder, FileType::FlagVal)?;
    let flag_info = read_source(alloc, panel, folder, FileType::FlagInfo)?;
    Ok(set_of(package_map, flag_map, flag_val, flag_info))
}

// One of the files, where it is there.
fn read_source<P: Panel>(
    alloc: Global,
    panel: &mut P,
    folder: &str,
    file: FileType,
) -> Result<Option<Vec<u8>>, ReadFault>
    ensures found { IsTrue P.tells → IfOk result (λ found. option_map (λ bytes. bytes.items) found
        ≡ P.files panel.old (source_path folder.now file)) }
    ensures reads { OnlyReads P.Panel panel.old panel.new (result ≡ Err ReadFault.Failed) }
{
    match source_name(alloc, folder, file) {
        Ok(name) => panel.read(alloc, name.as_str()),
        Err(_) => Err(ReadFault::OutOfMemory),
    }
}

// The name of a storage file in a folder.
#[tactic(auto, unfolding(crate::specs::Names::source_path))]
fn source_name(alloc: Global, folder: &str, file: FileType) -> Result<String, AllocError>
    ensures { IfOk result (λ name. string_bytes name ≡ source_path folder.now file) }
{
    let name = name_of_file(file);
    format!(in alloc; "{folder}/{name}")
}

fn name_of_file(file: FileType) -> &'static str
    ensures { result.now ≡ image_name file }
{
    match file {
        FileType::PackageMap => "package.map",
        FileType::FlagMap => "flag.map",
        FileType::FlagVal => "flag.val",
        FileType::FlagInfo => "flag.info",
    }
}

// The set of four files, where all of them are there.
fn set_of(
    package_map: Option<Vec<u8>>,
    flag_map: Option<Vec<u8>>,
    flag_val: Option<Vec<u8>>,
    flag_info: Option<Vec<u8>>,
) -> Option<ImageSet>
    ensures { result ≡ all_of (option_map (λ bytes. bytes.items) package_map)
        (option_map (λ bytes. bytes.items) flag_map) (option_map (λ bytes. bytes.items) flag_val)
        (option_map (λ bytes. bytes.items) flag_info) }
{
    let package_map = package_map?;
    let flag_map = flag_map?;
    let flag_val = flag_val?;
    let flag_info = flag_info?;
    Some(ImageSet::new(package_map, flag_map, flag_val, flag_info))
}
