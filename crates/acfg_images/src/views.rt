//! The four files, opened.

ghost use Rattle.std.specs.Prelude.{◌≡◌};
ghost use Rattle.acfg_images.specs.Faults.{opened_files};
ghost use Rattle.acfg_images.specs.Views.{Answers, opened_of};

use crate::fault::{FileType, ImageFault};
use crate::set::ImageSet;
use acfg_views::{FlagMap, Infos, PackageMap, Values};

/// The views of a set's files.
#[derive(Debug, Drop)]
pub(crate) struct Views<'a> {
    pub(crate) package_map: PackageMap<'a>,
    pub(crate) flag_map: FlagMap<'a>,
    pub(crate) values: Values<'a>,
    pub(crate) infos: Infos<'a>,
}

/// Opens the four files, in their order.
#[tactic(auto, unfolding(crate::specs::Faults::opened_files))]
pub(crate) fn open_views(set: &ImageSet) -> Result<Views<'_>, ImageFault>
    ensures { Answers opened_of result (opened_files set.now) }
{
    let package_map = match PackageMap::open(set.package_map()) {
        Ok(map) => map,
        Err(fault) => return Err(ImageFault::View(FileType::PackageMap, fault)),
    };
    let flag_map = match FlagMap::open(set.flag_map()) {
        Ok(map) => map,
        Err(fault) => return Err(ImageFault::View(FileType::FlagMap, fault)),
    };
    let values = match Values::open(set.flag_val()) {
        Ok(values) => values,
        Err(fault) => return Err(ImageFault::View(FileType::FlagVal, fault)),
    };
    let infos = match Infos::open(set.flag_info()) {
        Ok(infos) => infos,
        Err(fault) => return Err(ImageFault::View(FileType::FlagInfo, fault)),
    };
    Ok(Views {
        package_map,
        flag_map,
        values,
        infos,
    })
}
