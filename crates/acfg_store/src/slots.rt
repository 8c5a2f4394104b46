//! The files of an override slot: whether they are there and lawful over the flags of the release.

ghost use Rattle.std.specs.Prelude.{◌≡◌, ◌<◌, All, IfOk, IfSome, option_map};
ghost use Rattle.acfg_base.specs.Found.{Finds};
ghost use Rattle.acfg_store.specs.declared.names.OverrideFile.TheVariants as override;
ghost use Rattle.acfg_store.specs.Damage.{IsFirst};
ghost use Rattle.acfg_store.specs.Judged.{Judges};
ghost use Rattle.acfg_store.specs.Over.{AreBytesIn, AreOverrides, HasInfos, HasLocalsOver, HasValues, IsSoundOver};
ghost use Rattle.acfg_store.specs.Over.{read_over};
ghost use Rattle.acfg_store.specs.Over.{three_files};
ghost use Rattle.acfg_views.specs.Fields.{IsBytes};
ghost use Rattle.acfg_views.specs.Layout.{flag_info_type, flag_val_type};
ghost use Rattle.acfg_views.specs.Reading.{IsOpenList};

use crate::faults::Fault;
use crate::locals::Locals;
use crate::names::OverrideFile;
use crate::overrides::{flag_states, infos_of, locals_of, values_of};
use crate::placed::Placed;
use acfg_base::OutOfMemory;
use acfg_model::FlagState;
use acfg_views::{Infos, Values};
use std::alloc::Global;

/// The files of an override slot as they were read.
#[derive(Debug, Drop)]
pub(crate) struct OverrideFiles {
    pub(crate) values: Option<Vec<u8>>,
    pub(crate) infos: Option<Vec<u8>>,
    pub(crate) locals: Option<Vec<u8>>,
}

/// Without work: what was read are bytes.
pub(crate) fn are_bytes(read: &OverrideFiles)
    ensures { AreBytesIn (read_over read.now) }
{
    fit(&read.values);
    fit(&read.infos);
    fit(&read.locals);
}

fn fit(read: &Option<Vec<u8>>)
    ensures { IfSome (option_map (λ bytes. bytes.items) read.now) IsBytes }
{
    match read {
        None => {}
        Some(bytes) => bytes_fit(bytes),
    }
}

fn bytes_fit(bytes: &[u8])
    ensures { IsBytes bytes.now }
{
    let _len = bytes.len();
}

fn values_in<'a>(
    read: &'a Option<Vec<u8>>,
    container: &str,
    count: u32,
    flags: &[Placed],
) -> Option<Values<'a>>
    requires { All (λ row. row.found.index < count) flags.now }
    ensures found { Finds (HasValues container.now count flags.now (option_map (λ bytes. bytes.items) read.now))
        result }
    ensures open { IfSome result (IsOpenList flag_val_type) }
{
    match read {
        None => None,
        Some(bytes) => match values_of(bytes, container, count, flags) {
            None => None,
            Some(values) => {
                let _count = values.count();
                Some(values)
            }
        },
    }
}

fn infos_in<'a>(
    read: &'a Option<Vec<u8>>,
    container: &str,
    count: u32,
    flags: &[Placed],
    values: &Values<'_>,
) -> Option<Infos<'a>>
    requires count { values.now.count ≡ count }
    requires within { All (λ row. row.found.index < count) flags.now }
    ensures found { Finds (HasInfos container.now count flags.now (option_map (λ bytes. bytes.items) read.now)
        values.now) result }
    ensures open { IfSome result (IsOpenList flag_info_type) }
{
    match read {
        None => None,
        Some(bytes) => match infos_of(bytes, container, count, flags, values) {
            None => None,
            Some(infos) => {
                let _count = infos.count();
                Some(infos)
            }
        },
    }
}

fn locals_in(
    alloc: Global,
    read: &Option<Vec<u8>>,
    container: &str,
    count: u32,
    flags: &[Placed],
) -> Result<Option<Locals>, OutOfMemory>
    ensures { IfOk result (Finds (HasLocalsOver container.now count flags.now
        (option_map (λ bytes. bytes.items) read.now))) }
{
    let _container = container;
    match read {
        None => Ok(None),
        Some(bytes) => {
            let locals = locals_of(alloc, bytes, count, flags)?;
            Ok(locals)
        }
    }
}

/// The flags with the overrides that the files hold, or the first file that isn't there or isn't lawful.
pub(crate) fn judge_overrides(
    alloc: Global,
    read: &OverrideFiles,
    container: &str,
    count: u32,
    flags: Vec<Placed>,
) -> Result<Vec<FlagState>, Fault<OverrideFile>>
    requires { All (λ row. row.found.index < count) flags.items }
    ensures { Judges (λ rows. AreOverrides container.now count flags.items (read_over read.now) rows.items)
        (IsFirst (IsSoundOver container.now count flags.items (read_over read.now)) three_files) result }
{
    match values_in(&read.values, container, count, &flags) {
        None => Err(Fault::At(OverrideFile::FlagVal)),
        Some(values) => judge_infos(alloc, read, container, count, flags, &values),
    }
}

// The same, where the values are lawful.
fn judge_infos(
    alloc: Global,
    read: &OverrideFiles,
    container: &str,
    count: u32,
    flags: Vec<Placed>,
    values: &Values<'_>,
) -> Result<Vec<FlagState>, Fault<OverrideFile>>
    requires within { All (λ row. row.found.index < count) flags.items }
    requires values { HasValues container.now count flags.items (read_over read.now override.FlagVal) values.now }
    requires values_open { IsOpenList flag_val_type values.now }
    ensures { Judges (λ rows. AreOverrides container.now count flags.items (read_over read.now) rows.items)
        (IsFirst (IsSoundOver container.now count flags.items (read_over read.now)) three_files) result }
{
    match infos_in(&read.infos, container, count, &flags, values) {
        None => Err(Fault::At(OverrideFile::FlagInfo)),
        Some(infos) => judge_locals(alloc, read, container, count, flags, values, &infos),
    }
}

// The same, where the info bytes are lawful too.
fn judge_locals(
    alloc: Global,
    read: &OverrideFiles,
    container: &str,
    count: u32,
    flags: Vec<Placed>,
    values: &Values<'_>,
    infos: &Infos<'_>,
) -> Result<Vec<FlagState>, Fault<OverrideFile>>
    requires within { All (λ row. row.found.index < count) flags.items }
    requires values { HasValues container.now count flags.items (read_over read.now override.FlagVal) values.now }
    requires values_open { IsOpenList flag_val_type values.now }
    requires infos { HasInfos container.now count flags.items (read_over read.now override.FlagInfo) values.now
        infos.now }
    requires infos_open { IsOpenList flag_info_type infos.now }
    ensures { Judges (λ rows. AreOverrides container.now count flags.items (read_over read.now) rows.items)
        (IsFirst (IsSoundOver container.now count flags.items (read_over read.now)) three_files) result }
{
    let found = locals_in(alloc, &read.locals, container, count, &flags)?;
    match found {
        None => Err(Fault::At(OverrideFile::Local)),
        Some(locals) => {
            let rows = flag_states(alloc, flags, values, infos, locals.as_slice())?;
            Ok(rows)
        }
    }
}
