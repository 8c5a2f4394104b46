//! `create-all LIST`: the image sets of several containers, each of them a job of a list.

ghost use Rattle.std.specs.Prelude.{◌≡◌, ◌++◌, Some, IsTrue, IfOk, OnErr, OnOk, option_map};
ghost use Rattle.std.specs.List.{flat_map};
ghost use Rattle.acfg_device.specs.Only.{OnlyReads};
ghost use Rattle.acfg_top.specs.Bodies.{AreAmong, Comes, IsProduct, missing_of};
ghost use Rattle.acfg_top.specs.CreateAll.{CreateAllGives, EachGives, IsStorageFile, JobsGive, ListGives};
ghost use Rattle.acfg_top.specs.Inputs.{inputs_in};
ghost use Rattle.acfg_top.specs.JobBodies.{jobs_of};
ghost use Rattle.acfg_top.specs.Outcome.{Outcome, IsBroken, OnlyWrites};

use crate::create_storage::store_caches;
use crate::ending::{Ending, Stop};
use crate::inputs::first_missing;
use crate::jobs::{Job, Listed, read_jobs};
use crate::output::{Output, only_told, put_out};
use crate::told::{Refusal, Told, refused};
use acfg_device::{Device, Panel};
use std::alloc::{AllocError, Global};

/// Writes the image sets of the jobs of a list, and says of each how many flags and packages it has, and its digest.
/// All sets are built before one is written.
pub fn create_all<D: Device>(alloc: Global, list: &str, device: &mut D) -> Result<Ending, Stop>
    ensures told { IsTrue D.tells → IfOk result (λ ending. Comes D.Panel
        (CreateAllGives list.now (D.files device.old)) ending device.old device.new) }
    ensures broken { IsTrue D.tells → OnErr result ((outcome : Outcome)
        → CreateAllGives list.now (D.files device.old) outcome
        → IsBroken D.Panel outcome device.old device.new) }
    ensures writes { OnlyWrites D.Panel IsStorageFile device.old device.new (result ≡ Err Stop.Failed) }
{
    let output = answer(alloc, list, device)?;
    put_out(device, &output)
}

// What there is to write and to tell.
fn answer<P: Panel>(alloc: Global, list: &str, panel: &mut P) -> Result<Output, Stop>
    ensures told { IsTrue P.tells → IfOk result (IsProduct (CreateAllGives list.now (P.files panel.old))) }
    ensures names { IfOk result (AreAmong IsStorageFile) }
    ensures reads { OnlyReads P.Panel panel.old panel.new (result ≡ Err Stop.Failed) }
{
    match panel.read(alloc, list)? {
        Some(bytes) => judged(alloc, list, &bytes, panel),
        None => Ok(only_told(alloc, refused(alloc, list, Refusal::Missing)?)),
    }
}

// What there is to write and to tell of a list of these bytes. It is judged before its caches are looked for.
fn judged<P: Panel>(alloc: Global, list: &str, bytes: &[u8], panel: &mut P) -> Result<Output, Stop>
    ensures told { IsTrue P.tells → IfOk result (IsProduct
        (ListGives list.now (P.files panel.old) (Some bytes.now))) }
    ensures names { IfOk result (AreAmong IsStorageFile) }
    ensures reads { OnlyReads P.Panel panel.old panel.new (result ≡ Err Stop.Failed) }
{
    match read_jobs(alloc, bytes)? {
        Listed::Jobs(jobs) => worked(alloc, &jobs, panel),
        Listed::BadLine(number) => Ok(only_told(
            alloc,
            refused(alloc, list, Refusal::BadLine(number))?,
        )),
    }
}

// What there is to write and to tell of jobs. The caches of all of them are looked for before any is judged.
fn worked<P: Panel>(alloc: Global, jobs: &[Job], panel: &mut P) -> Result<Output, Stop>
    ensures told { IsTrue P.tells → IfOk result (IsProduct (JobsGive (P.files panel.old) (jobs_of jobs.now))) }
    ensures names { IfOk result (AreAmong IsStorageFile) }
    ensures reads { OnlyReads P.Panel panel.old panel.new (result ≡ Err Stop.Failed) }
{
    match missing_cache(alloc, jobs, panel)? {
        None => stored(alloc, jobs, panel),
        Some(name) => Ok(only_told(alloc, refused(alloc, name, Refusal::Missing)?)),
    }
}

// The first cache of jobs that isn't there. Those that are there are read again for their jobs, so that the caches of
// one job are kept at a time.
fn missing_cache<'a, P: Panel>(
    alloc: Global,
    jobs: &'a [Job],
    panel: &mut P,
) -> Result<Option<&'a str>, Stop>
    ensures found { IsTrue P.tells → IfOk result (λ found. option_map (λ name. name.now) found
        ≡ missing_of (inputs_in (P.files panel.old) (flat_map (λ job. job.caches) (jobs_of jobs.now)))) }
    ensures reads { OnlyReads P.Panel panel.old panel.new (result ≡ Err Stop.Failed) }
{
    for job in jobs {
        match first_missing(alloc, &job.caches, panel)? {
            Some(name) => return Ok(Some(name)),
            None => {}
        }
    }
    Ok(None)
}

// The image sets of jobs, and what there is to tell of them, or of the first job that is refused.
fn stored<P: Panel>(alloc: Global, jobs: &[Job], panel: &mut P) -> Result<Output, Stop>
    ensures told { IsTrue P.tells → IfOk result (IsProduct (EachGives (P.files panel.old) (jobs_of jobs.now))) }
    ensures names { IfOk result (AreAmong IsStorageFile) }
    ensures reads { OnlyReads P.Panel panel.old panel.new (result ≡ Err Stop.Failed) }
{
    let mut output = Output {
        told: Told {
            ending: Ending::Done,
            text: Vec::new(alloc),
        },
        files: Vec::new(alloc),
    };
    for job in jobs {
        let container = job.container.as_str();
        let dir = job.dir.as_str();
        let next = store_caches(alloc, container, dir, &job.caches, panel)?;
        match next.told.ending {
            Ending::Refused | Ending::Damaged => return Ok(next),
            Ending::Done => add(&mut output, next)?,
        }
    }
    Ok(output)
}

// Adds what there is to write and to tell of one more job.
fn add(output: &mut Output, next: Output) -> Result<(), AllocError>
    ensures ending { output.new.told.ending ≡ output.old.told.ending }
    ensures text { OnOk result (output.new.told.text.items ≡ output.old.told.text.items ++ next.told.text.items) }
    ensures files { OnOk result (output.new.files.items ≡ output.old.files.items ++ next.files.items) }
{
    output.told.text.extend_from_slice(&next.told.text)?;
    let mut files = next.files;
    output.files.append(&mut files)?;
    Ok(())
}
