//! Files that a command writes before it tells what it did.

ghost use Rattle.std.specs.Prelude.{◌≡◌, [], IsTrue, IfOk, OnErr};
ghost use Rattle.acfg_commit.specs.Written.{IsNameAmong};
ghost use Rattle.acfg_top.specs.Bodies.{IsEnding, IsOf, IsOutputOf};
ghost use Rattle.acfg_top.specs.Outcome.{Outcome, IsBroken, IsDone, OnlyWrites};

use crate::ending::{Ending, Stop};
use crate::told::{Told, tell};
use acfg_commit::{NewFile, save_files};
use acfg_device::{Device, Panel};
use std::alloc::Global;

/// What a command has to tell, and the files that it writes before.
#[derive(Drop)]
pub struct Output {
    pub told: Told,
    pub files: Vec<NewFile>,
}

/// What there is to tell of an outcome that writes no file.
pub fn only_told(alloc: Global, told: Told) -> Output
    ensures of { (outcome : Outcome) → IsOf outcome told → IsOutputOf outcome result }
    ensures none { result.files.items ≡ [] }
{
    Output {
        told,
        files: Vec::new(alloc),
    }
}

/// Writes the files, each of them synced, then syncs the names, and only then says what there is to tell. A refusal
/// writes nothing.
pub fn put_out<D: Device>(device: &mut D, output: &Output) -> Result<Ending, Stop>
    ensures told { IsTrue D.tells → IfOk result (λ ending. (outcome : Outcome) → IsOutputOf outcome output.now
        → IsEnding outcome ending × IsDone D.Panel outcome device.old device.new) }
    ensures broken { IsTrue D.tells → OnErr result ((outcome : Outcome) → IsOutputOf outcome output.now
        → IsBroken D.Panel outcome device.old device.new) }
    ensures writes { OnlyWrites D.Panel (IsNameAmong output.now.files.items) device.old device.new
        (result ≡ Err Stop.Failed) }
{
    match output.told.ending {
        Ending::Refused | Ending::Damaged => tell(device, &output.told),
        Ending::Done => save_and_tell(device, output),
    }
}

// Writes the files, and then says what there is to tell.
fn save_and_tell<D: Device>(device: &mut D, output: &Output) -> Result<Ending, Stop>
    requires { output.now.told.ending ≡ Ending.Done }
    ensures told { IsTrue D.tells → IfOk result (λ ending. (outcome : Outcome) → IsOutputOf outcome output.now
        → IsEnding outcome ending × IsDone D.Panel outcome device.old device.new) }
    ensures broken { IsTrue D.tells → OnErr result ((outcome : Outcome) → IsOutputOf outcome output.now
        → IsBroken D.Panel outcome device.old device.new) }
    ensures writes { OnlyWrites D.Panel (IsNameAmong output.now.files.items) device.old device.new
        (result ≡ Err Stop.Failed) }
{
    save_files(device, output.files.as_slice())?;
    tell(device, &output.told)
}
