//! The plain machine: a pure model of the flag daemon, on finite maps.
#![tactic(auto)]

mod changes;
mod containers;
mod machines;
mod names;
mod refusals;
mod renewing;
mod requests;
mod views;

pub use changes::{Change, FlagKey};
pub use containers::{Container, FlagState, place_of_change};
pub use machines::Machine;
pub use names::{ContainerRow, place_of};
pub use refusals::Refusal;
pub use requests::{Loaded, Reply, Request};
pub use views::{BootCopy, Booted, ContainerState, Override, Overrides, State};
