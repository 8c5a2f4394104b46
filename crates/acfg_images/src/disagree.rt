//! Faults among files that are each lawful.

ghost use Rattle.std.specs.Prelude.{◌≡◌, ◌<◌, ◌^◌, IfOk, EachIndex, length, slice_index, slice_index_or, true, false};
ghost use Rattle.std.specs.Prelude.{None, map as mapped, []};
ghost use Rattle.acfg_views.specs.Reading.{package_of, flag_of};
ghost use Rattle.acfg_images.specs.Faults.{or_else, bits_fault, container_fault, id_fault, count_fault};
ghost use Rattle.acfg_images.specs.Faults.{package_fault, index_fault, stray_id, indexed_fault, disagreement};
ghost use Rattle.acfg_images.specs.Code.{HasStarts, kind_fault_by};
ghost use Rattle.acfg_images.specs.Room.{AreUnusedIndexes, AreUnusedNumbers};
ghost use Rattle.acfg_images.specs.Views.{opened_of};

use crate::agree::{
    count_numbers, first_not_once, first_stray_id, first_unmarked, global_indexes, mark_ids,
    put_starts, unmark_wrong_kinds,
};
use crate::bits::{first_bad_info, first_bad_value};
use crate::fault::{FileType, ImageFault, Point2};
use crate::purpose::Use;
use crate::room::{IndexTables, NumberTables, marks, zeros};
use crate::views::Views;
use acfg_views::{FlagNode, Infos, PackageNode};
use std::alloc::AllocError;

/// The first byte of `flag.val`, or else of `flag.info`, that isn't lawful.
pub(crate) fn find_bits(views: &Views<'_>, purpose: Use) -> Option<ImageFault>
    ensures { result ≡ bits_fault purpose (opened_of views.now) }
{
    if let Some(i) = first_bad_value(&views.values) {
        return Some(ImageFault::Bits(FileType::FlagVal, i));
    }
    match first_bad_info(&views.infos, purpose) {
        Some(i) => Some(ImageFault::Bits(FileType::FlagInfo, i)),
        None => None,
    }
}

/// The first file whose container isn't that of `package.map`.
pub(crate) fn find_container(views: &Views<'_>) -> Option<ImageFault>
    ensures { result ≡ container_fault (opened_of views.now) }
{
    let container = views.package_map.container();
    if views.flag_map.container() != container {
        return Some(ImageFault::Disagree(Point2::Container, 1, 0));
    }
    if views.values.container() != container {
        return Some(ImageFault::Disagree(Point2::Container, 2, 0));
    }
    if views.infos.container() != container {
        return Some(ImageFault::Disagree(Point2::Container, 3, 0));
    }
    None
}

/// The least number below the number of packages that isn't an id.
pub(crate) fn find_id(
    ids: Vec<bool>,
    packages: &[PackageNode<'_>],
) -> Result<Option<ImageFault>, AllocError>
    requires ids { ids.items ≡ [] }
    requires few { length packages.now < 2 ^ 32 }
    ensures { IfOk result (λ fault. fault ≡ id_fault (mapped package_of packages.now)) }
{
    let mut ids = marks(ids, packages.len(), false)?;
    Ok(unmarked_id(&mut ids, packages))
}

fn unmarked_id(marks: &mut [bool], packages: &[PackageNode<'_>]) -> Option<ImageFault>
    requires few { length packages.now < 2 ^ 32 }
    requires same { length marks.old ≡ length packages.now }
    requires none { EachIndex marks.old (λ k. slice_index_or marks.old k false ≡ false) }
    ensures { result ≡ id_fault (mapped package_of packages.now) }
{
    mark_ids(marks, packages);
    match first_unmarked(marks) {
        Some(k) => Some(ImageFault::Disagree(Point2::Id, k, packages.len() as u32)),
        None => None,
    }
}

/// The first number of flags that isn't that of `flag.map`.
pub(crate) fn find_count(views: &Views<'_>) -> Option<ImageFault>
    ensures { result ≡ count_fault (opened_of views.now) }
{
    let count = views.flag_map.count();
    if views.values.count() != count {
        return Some(ImageFault::Disagree(Point2::Count, views.values.count(), count));
    }
    if views.infos.count() != count {
        return Some(ImageFault::Disagree(Point2::Count, views.infos.count(), count));
    }
    None
}

/// The first flag whose package id is none of so many.
pub(crate) fn find_package(count: u32, flags: &[FlagNode<'_>]) -> Option<ImageFault>
    ensures { result ≡ package_fault count (mapped flag_of flags.now) }
{
    match first_stray_id(count as usize, flags) {
        Some(id) => Some(ImageFault::Disagree(Point2::Package, id, count)),
        None => None,
    }
}

/// Where each package's flags start, by id.
pub(crate) fn starts_by_id(
    starts: Vec<u32>,
    packages: &[PackageNode<'_>],
) -> Result<Vec<u32>, AllocError>
    requires { starts.items ≡ [] }
    ensures size { IfOk result (λ starts. length starts.items ≡ length packages.now) }
    ensures starts { IfOk result (λ starts. HasStarts starts.items (mapped package_of packages.now)) }
{
    let mut starts = zeros(starts, packages.len())?;
    put_starts(&mut starts, packages);
    Ok(starts)
}

/// The least number below the number of flags that isn't the global index of one flag alone.
pub(crate) fn find_index(
    counts: Vec<u32>,
    indexes: &[u64],
) -> Result<Option<ImageFault>, AllocError>
    requires counts { counts.items ≡ [] }
    requires few { length indexes.now < 2 ^ 32 }
    ensures { IfOk result (λ fault. fault ≡ index_fault indexes.now) }
{
    let mut counts = zeros(counts, indexes.len())?;
    Ok(index_counted(&mut counts, indexes))
}

fn index_counted(counts: &mut [u32], indexes: &[u64]) -> Option<ImageFault>
    requires few { length indexes.now < 2 ^ 32 }
    requires same { length counts.old ≡ length indexes.now }
    requires none { EachIndex counts.old (λ k. slice_index counts.old k ≡ 0) }
    ensures { result ≡ index_fault indexes.now }
{
    count_numbers(counts, indexes);
    match first_not_once(counts) {
        Some(k) => Some(ImageFault::Disagree(Point2::Index, k, counts[k as usize])),
        None => None,
    }
}

/// The least global index at which the read-write bit isn't the flag's type.
pub(crate) fn find_kind(
    kinds: Vec<bool>,
    infos: &Infos<'_>,
    starts: &[u32],
    flags: &[FlagNode<'_>],
) -> Result<Option<ImageFault>, AllocError>
    requires { kinds.items ≡ [] }
    ensures { IfOk result (λ fault. fault ≡ kind_fault_by starts.now (mapped flag_of flags.now) infos.now) }
{
    let mut kinds = marks(kinds, infos.count() as usize, true)?;
    Ok(kind_unmarked(&mut kinds, infos, starts, flags))
}

fn kind_unmarked(
    marks: &mut [bool],
    infos: &Infos<'_>,
    starts: &[u32],
    flags: &[FlagNode<'_>],
) -> Option<ImageFault>
    requires same { length marks.old ≡ infos.now.count }
    requires few { length marks.old < 2 ^ 32 }
    requires all { EachIndex marks.old (λ k. slice_index_or marks.old k false ≡ true) }
    ensures { result ≡ kind_fault_by starts.now (mapped flag_of flags.now) infos.now }
{
    unmark_wrong_kinds(marks, infos, starts, flags);
    match first_unmarked(marks) {
        Some(k) => Some(ImageFault::Disagree(Point2::Kind, k, u32::from(infos.at(k)))),
        None => None,
    }
}

/// The first fault of global indexes, or else of the flags' types.
pub(crate) fn find_by_index(
    tables: IndexTables,
    infos: &Infos<'_>,
    packages: &[PackageNode<'_>],
    flags: &[FlagNode<'_>],
) -> Result<Option<ImageFault>, AllocError>
    requires tables { AreUnusedIndexes tables }
    requires known { stray_id (length packages.now) (mapped flag_of flags.now) ≡ None }
    requires count { infos.now.count ≡ length flags.now }
    requires few { length flags.now < 2 ^ 32 }
    ensures { IfOk result (λ fault. fault ≡ indexed_fault (mapped package_of packages.now)
        (mapped flag_of flags.now) infos.now) }
{
    let IndexTables {
        starts,
        indexes,
        counts,
        kinds,
    } = tables;
    let starts = starts_by_id(starts, packages)?;
    let indexes = global_indexes(indexes, &starts, flags)?;
    match find_index(counts, &indexes)? {
        Some(fault) => Ok(Some(fault)),
        None => find_kind(kinds, infos, &starts, flags),
    }
}

/// The first fault among files that are each lawful.
pub(crate) fn find_disagreement(
    tables: NumberTables,
    views: &Views<'_>,
    packages: &[PackageNode<'_>],
    flags: &[FlagNode<'_>],
) -> Result<Option<ImageFault>, AllocError>
    requires tables { AreUnusedNumbers tables }
    requires packages { length packages.now < 2 ^ 32 }
    requires flags { length flags.now ≡ views.now.flag_map.count }
    requires few { length flags.now < 2 ^ 32 }
    ensures { IfOk result (λ fault. fault ≡ disagreement (opened_of views.now) (mapped package_of packages.now)
        (mapped flag_of flags.now)) }
{
    let NumberTables { ids, by_index } = tables;
    if let Some(fault) = find_container(views) {
        return Ok(Some(fault));
    }
    if let Some(fault) = find_id(ids, packages)? {
        return Ok(Some(fault));
    }
    if let Some(fault) = find_count(views) {
        return Ok(Some(fault));
    }
    if let Some(fault) = find_package(packages.len() as u32, flags) {
        return Ok(Some(fault));
    }
    find_by_index(by_index, &views.infos, packages, flags)
}

/// The first fault behind the maps: bits, and then what has to agree.
pub(crate) fn find_behind_maps(
    tables: NumberTables,
    views: &Views<'_>,
    purpose: Use,
    packages: &[PackageNode<'_>],
    flags: &[FlagNode<'_>],
) -> Result<Option<ImageFault>, AllocError>
    requires tables { AreUnusedNumbers tables }
    requires packages { length packages.now < 2 ^ 32 }
    requires flags { length flags.now ≡ views.now.flag_map.count }
    requires few { length flags.now < 2 ^ 32 }
    ensures { IfOk result (λ fault. fault ≡ or_else (bits_fault purpose (opened_of views.now)) (disagreement
        (opened_of views.now) (mapped package_of packages.now) (mapped flag_of flags.now))) }
{
    match find_bits(views, purpose) {
        Some(fault) => Ok(Some(fault)),
        None => find_disagreement(tables, views, packages, flags),
    }
}
