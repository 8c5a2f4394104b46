//! The device over the host's folder and its standard output.
#![tactic(auto)]

mod device;
mod faults;
mod files;
mod folders;
mod transfer;

pub use device::HostDevice;

#[cfg(test)]
mod tests;
