//! Tests of the libraries that the program stands on, by their public functions: a crate with tests of its own is
//! proved twice.
#![tactic(auto)]

#[cfg(test)]
mod building;
#[cfg(test)]
mod cache;
#[cfg(test)]
mod decls;
#[cfg(test)]
mod dump;
#[cfg(test)]
mod hashes;
#[cfg(test)]
mod images;
#[cfg(test)]
mod lookup;
#[cfg(test)]
mod model;
#[cfg(test)]
mod names;
#[cfg(test)]
mod text;
#[cfg(test)]
mod views;
#[cfg(test)]
mod wire;
