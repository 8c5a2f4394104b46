//! The four storage files of AOSP's aconfig_storage_file, version 1, as borrowed views.
//!
//! A view is opened once, which tests the header, and then lends what stands at its places. Nothing here takes memory.
#![tactic(auto)]

mod fault;
mod fields;
mod flag_map;
mod laws;
mod limits;
mod list_file;
mod lists;
mod map_file;
mod nodes;
mod package_map;
mod steps;

pub use fault::ViewFault;
pub use flag_map::FlagMap;
pub use laws::{lawful_names, nodes_are_spelled, parts_open, what_opens_is_spelled};
pub use limits::{are_too_large, new_info};
pub use lists::{Infos, Values};
pub use nodes::{FlagNode, PackageNode};
pub use package_map::PackageMap;
pub use steps::Steps;
