//! A device in memory. It tells its files and words, and gives what a cut of power may leave of them.
#![tactic(auto)]

mod call;
mod calls;
mod cut;
mod device;
mod disk;
mod file;
mod slots;

pub use device::MemDevice;
