//! Image sets: the four storage files of a container together, after AOSP's aconfig_storage_file.
//!
//! `specs/` says what a set is, which release and notes it holds, and which files are the image of a list of flags.
#![tactic(auto)]

mod agree;
mod bits;
mod buckets;
mod building;
mod chains;
mod checked;
mod checking;
mod digests;
mod disagree;
mod fault;
mod laws;
mod links;
mod maps;
mod nodes;
mod purpose;
mod releases;
mod restamping;
mod room;
mod set;
mod twins;
mod views;

pub use building::{BuildFault, MOST_FLAGS, build, build_lent};
pub use checked::Checked;
pub use checking::check;
pub use digests::digest;
pub use fault::{FileType, ImageFault, Point2};
pub use laws::{faultless_are_sets, images_are_sets};
pub use purpose::Use;
pub use releases::flags_of;
pub use restamping::restamp;
pub use set::ImageSet;
