//! Tests of scripts that are replayed on a device directory, by the public functions of the daemon and of the program.
#![tactic(auto)]

#[cfg(test)]
mod calling;
#[cfg(test)]
mod damaged;
#[cfg(test)]
mod memory;
#[cfg(test)]
mod replaying;
#[cfg(test)]
mod surviving;
