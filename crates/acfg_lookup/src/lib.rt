//! The look-up of packages and flags in a set of storage files that was checked.
//!
//! A look-up reads the nodes of one bucket, or of two, and nothing else. It takes no memory, and answers for every
//! text.
#![tactic(auto)]

mod flags;
mod found;
mod known;
mod packages;

pub use flags::find_flag;
pub use found::{Found, PackageAt};
pub use packages::find_package;
