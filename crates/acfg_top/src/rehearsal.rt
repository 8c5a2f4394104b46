//! `rehearse SCRIPT`: a script answered by the plain machine in memory.

ghost use Rattle.std.specs.Prelude.{◌≡◌, Some, IsTrue, IfOk, OnErr};
ghost use Rattle.acfg_device.specs.Only.{OnlySays};
ghost use Rattle.acfg_top.specs.Bodies.{Comes};
ghost use Rattle.acfg_top.specs.Outcome.{Outcome, IsBroken};
ghost use Rattle.acfg_top.specs.Rehearsal.{RehearseGives};

use crate::ending::{Ending, Stop, stop_of};
use crate::told::{Refusal, refused, tell};
use acfg_daemon::rehearse;
use acfg_device::Panel;
use std::alloc::Global;

/// Says the transcript of a script line by line.
pub fn rehearse_script<P: Panel>(alloc: Global, script: &str, panel: &mut P) -> Result<Ending, Stop>
    ensures told { IsTrue P.tells → IfOk result (λ ending.
        Comes P.Panel (RehearseGives script.now (P.files panel.old) (P.files panel.old script.now)) ending
        panel.old panel.new) }
    ensures broken { IsTrue P.tells → OnErr result ((outcome : Outcome)
        → RehearseGives script.now (P.files panel.old) (P.files panel.old script.now) outcome
        → IsBroken P.Panel outcome panel.old panel.new) }
    ensures says { OnlySays P.Panel panel.old panel.new (result ≡ Err Stop.Failed) }
{
    match panel.read(alloc, script)? {
        Some(bytes) => transcribe(alloc, script, &bytes, panel),
        None => {
            let told = refused(alloc, script, Refusal::Missing)?;
            tell(panel, &told)
        }
    }
}

// Says the transcript of a script of these bytes.
fn transcribe<P: Panel>(
    alloc: Global,
    script: &str,
    bytes: &[u8],
    panel: &mut P,
) -> Result<Ending, Stop>
    ensures told { IsTrue P.tells → IfOk result (λ ending.
        Comes P.Panel (RehearseGives script.now (P.files panel.old) (Some bytes.now)) ending panel.old panel.new) }
    ensures broken { IsTrue P.tells → OnErr result ((outcome : Outcome)
        → RehearseGives script.now (P.files panel.old) (Some bytes.now) outcome
        → IsBroken P.Panel outcome panel.old panel.new) }
    ensures says { OnlySays P.Panel panel.old panel.new (result ≡ Err Stop.Failed) }
{
    match rehearse(alloc, panel, bytes) {
        Ok(()) => Ok(Ending::Done),
        Err(fault) => Err(stop_of(fault)),
    }
}
