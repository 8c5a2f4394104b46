//! The device directory: which files it has, how they are spelled, and for which state they stand.
#![tactic(auto)]

mod accepting;
mod admitting;
mod answering;
mod applying;
mod applying_now;
mod booting;
mod boots;
mod containers;
mod copying;
mod faults;
mod fields;
mod gathering;
mod installing;
mod laws;
mod loading;
mod locals;
mod looking;
mod marking;
mod names;
mod opening;
mod overrides;
mod overriding;
mod placed;
mod planning;
mod pointer;
mod records;
mod renewing;
mod restarting;
mod rows;
mod sets;
mod slots;
mod stamping;
mod store;
mod store_fault;
mod turning;
mod updating;

pub use laws::{
    commits_leave_states, names_are_apart, nothing_stands, one_container_changes, one_damage,
    one_reading, one_state, other_files_are_free, some_damage, unused_names,
};
pub use locals::{LocalOverride, Locals, read_locals, write_locals};
pub use names::{OverrideFile, Part, Slot, file_name};
pub use pointer::{read_pointer, write_pointer};
pub use records::{Recorded, Records, read_records, write_records};
pub use store::Store;
pub use store_fault::StoreFault;
