//! `dump FORMAT FILTER FILE..`: the flags of caches by a template, of those that a filter lets through.

ghost use Rattle.std.specs.Prelude.{◌≡◌, IsTrue, IfOk, IfErr, OnErr, map, string_bytes};
ghost use Rattle.acfg_device.specs.Only.{OnlyReads, OnlySays};
ghost use Rattle.acfg_top.specs.Bodies.{Comes, IsAnswer, inputs_of};
ghost use Rattle.acfg_top.specs.Dump.{CachesGive, DumpGives, FilesGive, FilterGives, ListsGive};
ghost use Rattle.acfg_top.specs.Outcome.{Outcome, IsBroken};

use crate::caches::{name_at, read_caches};
use crate::ending::{Ending, Stop};
use crate::inputs::{Found, Input, read_inputs};
use crate::told::{Halt, Refusal, Told, refused, tell};
use crate::words::DumpWords;
use acfg_cache::{MergeFault, merge};
use acfg_decls::Flags;
use acfg_device::Panel;
use acfg_dump::{DumpFault, Filter, Template, dump};
use std::alloc::Global;

/// Says the lines of the flags of caches, merged.
pub fn dump_caches<P: Panel>(
    alloc: Global,
    asked: DumpWords<'_>,
    panel: &mut P,
) -> Result<Ending, Stop>
    ensures told { IsTrue P.tells → IfOk result (λ ending. Comes P.Panel
        (DumpGives asked.entry.format.now asked.entry.filter.now (map string_bytes asked.entry.files.now)
        (P.files panel.old)) ending panel.old panel.new) }
    ensures broken { IsTrue P.tells → OnErr result ((outcome : Outcome)
        → DumpGives asked.entry.format.now asked.entry.filter.now (map string_bytes asked.entry.files.now)
        (P.files panel.old) outcome
        → IsBroken P.Panel outcome panel.old panel.new) }
    ensures says { OnlySays P.Panel panel.old panel.new (result ≡ Err Stop.Failed) }
{
    let told = answer(alloc, asked, panel)?;
    tell(panel, &told)
}

// What there is to tell. The format is looked at first.
fn answer<P: Panel>(alloc: Global, asked: DumpWords<'_>, panel: &mut P) -> Result<Told, Stop>
    ensures told { IsTrue P.tells → IfOk result (IsAnswer (DumpGives asked.entry.format.now asked.entry.filter.now
        (map string_bytes asked.entry.files.now) (P.files panel.old))) }
    ensures reads { OnlyReads P.Panel panel.old panel.new (result ≡ Err Stop.Failed) }
{
    match Template::parse(alloc, asked.format) {
        Ok(template) => filtered(alloc, &template, asked.filter, asked.files, panel),
        Err(DumpFault::BadPlaceholder(place)) => {
            Ok(refused(alloc, "format", Refusal::Placeholder(place))?)
        }
        Err(DumpFault::BadFilter(_) | DumpFault::OutOfMemory) => Err(Stop::OutOfMemory),
    }
}

// What there is to tell with a template. The filter is looked at next.
fn filtered<P: Panel>(
    alloc: Global,
    template: &Template,
    filter: &str,
    files: &[String],
    panel: &mut P,
) -> Result<Told, Stop>
    ensures told { IsTrue P.tells → IfOk result (IsAnswer (FilterGives template.now filter.now
        (map string_bytes files.now) (P.files panel.old))) }
    ensures reads { OnlyReads P.Panel panel.old panel.new (result ≡ Err Stop.Failed) }
{
    match Filter::parse(alloc, filter) {
        Ok(filter) => read_files(alloc, template, &filter, files, panel),
        Err(DumpFault::BadFilter(place)) => {
            Ok(refused(alloc, "filter", Refusal::Filter(place))?)
        }
        Err(DumpFault::BadPlaceholder(_) | DumpFault::OutOfMemory) => Err(Stop::OutOfMemory),
    }
}

// What there is to tell of files with a template and a filter.
fn read_files<P: Panel>(
    alloc: Global,
    template: &Template,
    filter: &Filter,
    files: &[String],
    panel: &mut P,
) -> Result<Told, Stop>
    ensures told { IsTrue P.tells → IfOk result (IsAnswer (FilesGive template.now filter.now
        (map string_bytes files.now) (P.files panel.old))) }
    ensures reads { OnlyReads P.Panel panel.old panel.new (result ≡ Err Stop.Failed) }
{
    match read_inputs(alloc, files, panel)? {
        Found::All(inputs) => dumped(alloc, template, filter, files, &inputs),
        Found::Missing(name) => Ok(refused(alloc, name, Refusal::Missing)?),
    }
}

// What there is to tell of caches.
fn dumped(
    alloc: Global,
    template: &Template,
    filter: &Filter,
    files: &[String],
    inputs: &[Input<'_>],
) -> Result<Told, Stop>
    ensures told { IfOk result (IsAnswer (CachesGive template.now filter.now (map string_bytes files.now)
        (inputs_of inputs.now))) }
    ensures err { IfErr result (λ stop. stop ≡ Stop.OutOfMemory) }
{
    match read_caches(alloc, None, inputs) {
        Ok(lists) => merged(alloc, template, filter, files, &lists),
        Err(Halt::Refused(told)) => Ok(told),
        Err(Halt::OutOfMemory) => Err(Stop::OutOfMemory),
    }
}

// What there is to tell of the lists of flags of caches.
fn merged(
    alloc: Global,
    template: &Template,
    filter: &Filter,
    files: &[String],
    lists: &[Flags],
) -> Result<Told, Stop>
    ensures told { IfOk result (IsAnswer (ListsGive template.now filter.now (map string_bytes files.now) lists.now)) }
    ensures err { IfErr result (λ stop. stop ≡ Stop.OutOfMemory) }
{
    match merge(alloc, lists, true) {
        Ok(flags) => Ok(Told {
            ending: Ending::Done,
            text: dump(alloc, &flags, template, filter)?,
        }),
        Err(MergeFault::Clash(list, name)) => Ok(refused(
            alloc,
            name_at(files, list),
            Refusal::Clash(name.as_str()),
        )?),
        Err(MergeFault::OutOfMemory) => Err(Stop::OutOfMemory),
    }
}
