//! The outside as every layer sees it: named files, the words said, how often the outside failed, and what a
//! cut of power may leave.
#![tactic(auto)]

mod device;
mod panel;

pub use device::Device;
pub use panel::{Failed, OutOfMemory, Panel, ReadFault};
