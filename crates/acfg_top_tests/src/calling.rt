//! The program's top call, without its contract.

use acfg_memdev::MemDevice;
use std::alloc::Global;

/// What `run` answers. Nothing is promised here, so that no test carries all that `run` promises.
pub fn run(alloc: Global, words: &[String], device: &mut MemDevice) -> u8 {
    acfg_top::run(alloc, words, device)
}
