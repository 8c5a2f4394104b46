//! The names of flags, packages and containers, the releases of their flags, and what every layer says of them.
#![tactic(auto)]

mod memory;
mod names;
mod order;
mod ordered;
mod parsed;
mod paths;
mod releases;
mod sequence;
mod text;

pub use memory::OutOfMemory;
pub use names::{is_container, is_name, is_package};
pub use order::one_order;
pub use ordered::{FlagRow, InOrder, Row, place};
pub use parsed::{ContainerName, Lawful, Name, PackageName, Rule};
pub use paths::is_path;
pub use releases::{Entry, Kind, Release};
pub use sequence::Sequence;
pub use text::Text;
