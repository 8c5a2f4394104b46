//! The flag that a message's fields make, where all that it requires is there and lawful.

ghost use Rattle.std.specs.Prelude.{◌≡◌, IfOk, IfErr, OnOk, map};
ghost use Rattle.std.specs.List.{AllByRecursion, list_all};
ghost use Rattle.std.specs.Option.{SomeIff};
ghost use Rattle.acfg_base.specs.Names.{IsContainer, IsPackage};
ghost use Rattle.acfg_decls.specs.Flags.{IsLawful};
ghost use Rattle.acfg_cache.specs.Reading.{FirstFails, Holds, IfFault, flag_of, has_fields, is_point, is_whole};
ghost use Rattle.acfg_cache.specs.Reading.{made_tests, own_tests, point, purpose, purpose_in};
ghost use Rattle.acfg_cache.specs.Bodies.{AreNames, counted_read, joined_number, leaves_read, messages_read};

use crate::counting::Counted;
use crate::fault::CacheFault;
use crate::leaves::{Leaf, has_number, is_true, number, number_behind, text, text_or_none, texts};
use acfg_base::{ContainerName, Name, OutOfMemory, PackageName, Sequence, Text};
use acfg_decls::{Flag, Point, Purpose};
use std::alloc::{AllocError, Global};

/// The names of a flag.
#[derive(Debug, Drop)]
pub struct Names {
    pub package: PackageName,
    pub name: Name,
    pub namespace: Name,
    pub container: ContainerName,
}

/// The flag of the fields that count, at this position of the cache, behind the flag that is the last so far.
pub fn make_flag(
    alloc: Global,
    counted: &Counted<'_>,
    index: usize,
    last: Option<&Flag>,
) -> Result<Flag, CacheFault>
    ensures flag { IfOk result (λ flag. flag ≡ flag_of (counted_read counted.now)) }
    ensures lawful { IfOk result IsLawful }
    ensures passed { OnOk result (AllByRecursion Holds (made_tests index (counted_read counted.now))) }
    ensures err { IfErr result (λ fault. IfFault fault (FirstFails (made_tests index (counted_read counted.now)))) }
{
    let names = test_whole(alloc, counted, index, last)?;
    Ok(build_flag(alloc, counted, names)?)
}

// The flag of these fields and names.
fn build_flag(alloc: Global, counted: &Counted<'_>, names: Names) -> Result<Flag, AllocError>
    requires { AreNames names (flag_of (counted_read counted.now)) }
    ensures { IfOk result (λ flag. flag ≡ flag_of (counted_read counted.now)) }
{
    let said = counted.leaves.as_slice();
    Ok(Flag {
        package: names.package,
        name: names.name,
        namespace: names.namespace,
        description: Text::copy(alloc, text_or_none(4, said))?,
        bugs: texts(alloc, 5, said)?,
        enabled: has_number(6, 1, said),
        writable: has_number(7, 2, said),
        trace: make_trace(alloc, &counted.traces)?,
        fixed: is_true(9, said),
        exported: is_true(10, said),
        container: names.container,
        purpose: make_purpose(&counted.metadata),
    })
}

// Tests what a flag lacks, its names and its permission, and gives the names.
fn test_whole(
    alloc: Global,
    counted: &Counted<'_>,
    index: usize,
    last: Option<&Flag>,
) -> Result<Names, CacheFault>
    ensures names { IfOk result (λ names. AreNames names (flag_of (counted_read counted.now))) }
    ensures passed { OnOk result (AllByRecursion Holds (made_tests index (counted_read counted.now))) }
    ensures err { IfErr result (λ fault. IfFault fault (FirstFails (made_tests index (counted_read counted.now)))) }
{
    if is_whole(counted) {
        test_flag(alloc, counted, index, last)
    } else {
        Err(CacheFault::Missing(index))
    }
}

// Tests a flag's names and its permission, and gives the names.
fn test_flag(
    alloc: Global,
    counted: &Counted<'_>,
    index: usize,
    last: Option<&Flag>,
) -> Result<Names, CacheFault>
    ensures names { IfOk result (λ names. AreNames names (flag_of (counted_read counted.now))) }
    ensures passed { OnOk result (AllByRecursion Holds (own_tests index (flag_of (counted_read counted.now)))) }
    ensures err { IfErr result (λ fault. IfFault fault
        (FirstFails (own_tests index (flag_of (counted_read counted.now))))) }
{
    let said = counted.leaves.as_slice();
    let Some(package) = package_of(alloc, text_or_none(1, said), last)? else {
        return Err(CacheFault::BadName(index));
    };
    let Some(name) = Name::parse(alloc, text_or_none(2, said))? else {
        return Err(CacheFault::BadName(index));
    };
    let Some(namespace) = Name::parse(alloc, text_or_none(3, said))? else {
        return Err(CacheFault::BadName(index));
    };
    let Some(container) = container_of(alloc, text_or_none(11, said), last)? else {
        return Err(CacheFault::BadName(index));
    };
    if is_true(9, said) && has_number(7, 2, said) {
        return Err(CacheFault::BadPermission(index));
    }
    Ok(Names {
        package,
        name,
        namespace,
        container,
    })
}

// The package that a text names, where it names one. Most are that of the last flag, and it isn't tested again.
fn package_of(
    alloc: Global,
    text: &str,
    last: Option<&Flag>,
) -> Result<Option<PackageName>, OutOfMemory>
    ensures { IfOk result (λ name. SomeIff name (IsPackage text.now) text.now) }
{
    match last {
        Some(last) => {
            if last.package.as_str() == text {
                Ok(Some(last.package.clone()?))
            } else {
                PackageName::parse(alloc, text)
            }
        }
        None => PackageName::parse(alloc, text),
    }
}

// The container that a text names, where it names one. Most are that of the last flag.
fn container_of(
    alloc: Global,
    text: &str,
    last: Option<&Flag>,
) -> Result<Option<ContainerName>, OutOfMemory>
    ensures { IfOk result (λ name. SomeIff name (IsContainer text.now) text.now) }
{
    match last {
        Some(last) => {
            if last.container.as_str() == text {
                Ok(Some(last.container.clone()?))
            } else {
                ContainerName::parse(alloc, text)
            }
        }
        None => ContainerName::parse(alloc, text),
    }
}

// Whether all that a flag requires is there.
fn is_whole(counted: &Counted<'_>) -> bool
    ensures { result ≡ is_whole (counted_read counted.now) }
{
    has_fields(&counted.leaves) && !counted.traces.is_empty() && are_points(&counted.traces)
}

// Whether the texts and numbers that a flag requires are there.
fn has_fields(said: &[Leaf<'_>]) -> bool
    ensures { result ≡ has_fields (leaves_read said.now) }
{
    text(1, said).is_some()
        && text(2, said).is_some()
        && text(3, said).is_some()
        && text(4, said).is_some()
        && text(11, said).is_some()
        && number(6, said).is_some()
        && number(7, said).is_some()
}

// Whether each trace is whole.
fn are_points(traces: &[Vec<Leaf<'_>>]) -> bool
    ensures { result ≡ list_all is_point (messages_read traces.now) }
{
    for trace in traces {
        if !is_point(trace) {
            return false;
        }
    }
    true
}

// Whether a trace has its source, state and permission.
fn is_point(trace: &[Leaf<'_>]) -> bool
    ensures { result ≡ is_point (leaves_read trace.now) }
{
    text(1, trace).is_some() && number(2, trace).is_some() && number(3, trace).is_some()
}

fn make_trace(alloc: Global, traces: &[Vec<Leaf<'_>>]) -> Result<Sequence<Point>, AllocError>
    ensures { IfOk result (λ points. points ≡ map point (messages_read traces.now)) }
{
    let mut points = Sequence::from_vec(Vec::with_capacity(alloc, traces.len())?);
    for trace in traces {
        points.push(make_point(alloc, trace)?)?;
    }
    Ok(points)
}

fn make_point(alloc: Global, trace: &[Leaf<'_>]) -> Result<Point, AllocError>
    ensures { IfOk result (λ made. made ≡ point (leaves_read trace.now)) }
{
    Ok(Point {
        source: Text::copy(alloc, text_or_none(1, trace))?,
        enabled: has_number(2, 1, trace),
        writable: has_number(3, 2, trace),
    })
}

// The purpose that a flag's metadata messages have together.
fn make_purpose(metadata: &[Vec<Leaf<'_>>]) -> Option<Purpose>
    ensures { result ≡ purpose_in (messages_read metadata.now) }
{
    if metadata.is_empty() {
        return None;
    }
    Some(purpose_of(last_purpose(metadata).unwrap_or(0)))
}

// The last purpose of several metadata messages.
fn last_purpose(metadata: &[Vec<Leaf<'_>>]) -> Option<u64>
    ensures { result ≡ joined_number 1 (messages_read metadata.now) }
{
    let mut last = None;
    for message in metadata {
        last = number_behind(1, message, last);
    }
    last
}

fn purpose_of(number: u64) -> Purpose
    ensures { result ≡ purpose number }
{
    match number {
        1 => Purpose::Feature,
        2 => Purpose::Bugfix,
        _ => Purpose::Unspecified,
    }
}
