//! The four files of a release or of a boot copy: whether they are there, and are the set that is meant.

ghost use Rattle.std.specs.Prelude.{◌≡◌, MatchResult};
ghost use Rattle.acfg_images.specs.declared.purpose.Use.TheVariants as purpose;
ghost use Rattle.acfg_store.specs.Damage.{IsFirst, IsItsRelease};
ghost use Rattle.acfg_store.specs.Judged.{IsAllOf, IsThere, JudgesSet, fault_of, four_types};

use crate::faults::Fault;
use crate::records::Recorded;
use acfg_images::{Checked, FileType, ImageFault, ImageSet, Use, check, digest};
use std::alloc::Global;

/// The files of a slot as they were read.
#[derive(Debug, Drop)]
pub(crate) struct SlotFiles {
    pub(crate) package_map: Option<Vec<u8>>,
    pub(crate) flag_map: Option<Vec<u8>>,
    pub(crate) flag_val: Option<Vec<u8>>,
    pub(crate) flag_info: Option<Vec<u8>>,
}

/// The set of four files, or the first one that isn't there.
pub(crate) fn whole(read: SlotFiles) -> Result<ImageSet, FileType>
    ensures { MatchResult result (IsAllOf read) (IsFirst (IsThere read) four_types) }
{
    let SlotFiles {
        package_map,
        flag_map,
        flag_val,
        flag_info,
    } = read;
    let Some(package_map) = package_map else {
        return Err(FileType::PackageMap);
    };
    let Some(flag_map) = flag_map else {
        return Err(FileType::FlagMap);
    };
    let Some(flag_val) = flag_val else {
        return Err(FileType::FlagVal);
    };
    let Some(flag_info) = flag_info else {
        return Err(FileType::FlagInfo);
    };
    Ok(ImageSet::new(package_map, flag_map, flag_val, flag_info))
}

/// The release of a container, which has the digest that is listed.
pub(crate) fn check_release<'a>(
    alloc: Global,
    set: &'a ImageSet,
    row: &Recorded,
) -> Result<Checked<'a>, Fault<FileType>>
    ensures { JudgesSet purpose.Release (IsItsRelease row.now set.now) set.now result }
{
    match check(alloc, set, Use::Release) {
        Ok(checked) => {
            if checked.container() == row.name.as_str() && digest(set) == row.digest {
                Ok(checked)
            } else {
                Err(Fault::At(FileType::PackageMap))
            }
        }
        Err(fault) => Err(blame(fault)),
    }
}

/// The boot copy of a container.
pub(crate) fn check_copy<'a>(
    alloc: Global,
    set: &'a ImageSet,
    container: &str,
) -> Result<Checked<'a>, Fault<FileType>>
    ensures { JudgesSet purpose.Copy (λ opened. opened.package_map.container ≡ container.now) set.now result }
{
    match check(alloc, set, Use::Copy) {
        Ok(checked) => {
            if checked.container() == container {
                Ok(checked)
            } else {
                Err(Fault::At(FileType::PackageMap))
            }
        }
        Err(fault) => Err(blame(fault)),
    }
}

fn blame(fault: ImageFault) -> Fault<FileType>
    ensures { result ≡ fault_of fault }
{
    match fault {
        ImageFault::TooLarge(_) | ImageFault::Disagree(..) => Fault::At(FileType::PackageMap),
        ImageFault::View(file, _)
        | ImageFault::Node(file, _)
        | ImageFault::Twice(file, _)
        | ImageFault::Chain(file, _)
        | ImageFault::Bits(file, _) => Fault::At(file),
        ImageFault::OutOfMemory => Fault::OutOfMemory,
    }
}
