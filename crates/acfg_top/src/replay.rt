//! `replay SCRIPT DIR`: a script answered on a device directory.

ghost use Rattle.std.specs.Prelude.{◌≡◌, Err, IfOk, IsTrue, OnErr, Some};
ghost use Rattle.acfg_device.specs.Disk.{IsSettled};
ghost use Rattle.acfg_device.specs.Left.{LeavesSince};
ghost use Rattle.acfg_store.specs.Names.{IsOfDirectory};
ghost use Rattle.acfg_top.specs.Bodies.{Comes};
ghost use Rattle.acfg_top.specs.Outcome.{IsBroken, OnlyWrites, Outcome};
ghost use Rattle.acfg_top.specs.Replay.{LeavesOfCommand, ReplayGives};

use crate::ending::{Ending, Stop};
use crate::told::{Refusal, damaged, refused, tell};
use acfg_daemon::{DaemonFault, replay};
use acfg_device::{Device, Panel};
use std::alloc::Global;

/// Answers a script on a device directory line by line, each line once its request is committed. Damage is told in the
/// place of all answers.
pub fn replay_script<D: Device>(
    alloc: Global,
    script: &str,
    dir: &str,
    device: &mut D,
) -> Result<Ending, Stop>
    ensures told { IsTrue D.tells → IfOk result (λ ending. Comes D.Panel
        (ReplayGives script.now dir.now (D.files device.old) (D.files device.old script.now)) ending
        device.old device.new) }
    ensures broken { IsTrue D.tells → OnErr result ((outcome : Outcome)
        → ReplayGives script.now dir.now (D.files device.old) (D.files device.old script.now) outcome
        → IsBroken D.Panel outcome device.old device.new) }
    ensures writes { OnlyWrites D.Panel (IsOfDirectory dir.now) device.old device.new (result ≡ Err Stop.Failed) }
    ensures cut { IsTrue D.tells → IsSettled (D.account device.old).now
        → LeavesSince (D.account device.old) (D.account device.new)
        (LeavesOfCommand script.now dir.now (D.files device.old) (D.said device.old)) }
    ensures settled { IsTrue D.tells → IsSettled (D.account device.old).now → (result ≡ Err Stop.Failed → ⊥)
        → IsSettled (D.account device.new).now }
{
    match device.read(alloc, script)? {
        Some(bytes) => answer(alloc, script, dir, &bytes, device),
        None => {
            let told = refused(alloc, script, Refusal::Missing)?;
            tell(device, &told)
        }
    }
}

// Answers a script of these bytes.
fn answer<D: Device>(
    alloc: Global,
    script: &str,
    dir: &str,
    bytes: &[u8],
    device: &mut D,
) -> Result<Ending, Stop>
    requires { IsTrue D.tells → D.files device.old script.now ≡ Some bytes.now }
    ensures told { IsTrue D.tells → IfOk result (λ ending. Comes D.Panel
        (ReplayGives script.now dir.now (D.files device.old) (Some bytes.now)) ending device.old device.new) }
    ensures broken { IsTrue D.tells → OnErr result ((outcome : Outcome)
        → ReplayGives script.now dir.now (D.files device.old) (Some bytes.now) outcome
        → IsBroken D.Panel outcome device.old device.new) }
    ensures writes { OnlyWrites D.Panel (IsOfDirectory dir.now) device.old device.new (result ≡ Err Stop.Failed) }
    ensures cut { IsTrue D.tells → IsSettled (D.account device.old).now
        → LeavesSince (D.account device.old) (D.account device.new)
        (LeavesOfCommand script.now dir.now (D.files device.old) (D.said device.old)) }
    ensures settled { IsTrue D.tells → IsSettled (D.account device.old).now → (result ≡ Err Stop.Failed → ⊥)
        → IsSettled (D.account device.new).now }
{
    match replay(alloc, device, dir, bytes) {
        Ok(()) => Ok(Ending::Done),
        Err(DaemonFault::Damaged(file)) => {
            let told = damaged(alloc, file.as_str())?;
            tell(device, &told)
        }
        Err(DaemonFault::Device) => Err(Stop::Failed),
        Err(DaemonFault::OutOfMemory) => Err(Stop::OutOfMemory),
    }
}
