//! Tests of the program's top call, of scripts and of the device directory, by their public functions.
#![tactic(auto)]

#[cfg(test)]
mod caching;
#[cfg(test)]
mod calling;
#[cfg(test)]
mod daemon;
#[cfg(test)]
mod jobs;
#[cfg(test)]
mod query;
#[cfg(test)]
mod scripts;
#[cfg(test)]
mod storage;
#[cfg(test)]
mod store;
#[cfg(test)]
mod top;
