//! Declarations of flags and the values that builds set, compiled as AOSP aconfig compiles them.
#![tactic(auto)]

mod arranging;
mod compiling;
mod declared;
mod declaring;
mod faults;
mod files;
mod flags;
mod laws;
mod messages;
mod order;
mod own;
mod reading;
mod scalars;
mod setting;
mod walk;

pub use compiling::{MOST_FLAGS, compile};
pub use declared::{Declarations, Values};
pub use faults::{CompileFault, DeclFault, DeclWhat};
pub use files::{one_reading, read_declarations, read_values};
pub use flags::{Flag, Flags, Point, Purpose};
pub use laws::one_compiling;
pub use own::{compile_own, read_container};
