//! The calls that the tests make, without their contracts.

use acfg_daemon::DaemonFault;
use acfg_memdev::MemDevice;
use std::alloc::Global;

/// What `replay` answers. Nothing is promised here, so that no test carries all that `replay` promises.
pub fn replay(
    alloc: Global,
    device: &mut MemDevice,
    dir: &str,
    script: &[u8],
) -> Result<(), DaemonFault> {
    acfg_daemon::replay(alloc, device, dir, script)
}

/// What `run` answers, in the same way.
pub fn run(alloc: Global, words: &[String], device: &mut MemDevice) -> u8 {
    acfg_top::run(alloc, words, device)
}
