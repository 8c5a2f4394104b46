//! What the four files have to agree on, by tables of marks and counts.

ghost use Rattle.std.specs.Prelude.{◌≡◌, [], ◌==◌, ◌<◌, ◌^◌, ◌+◌, ℕ, IfOk, IfSome, EachIndex, length, slice_index};
ghost use Rattle.std.specs.Prelude.{slice_index_or, slice_set, true, map as mapped, not, count_by, false};
ghost use Rattle.std.specs.List.{list_any, list_all};
ghost use Rattle.acfg_views.specs.Reading.{package_of, flag_of};
ghost use Rattle.acfg_images.specs.Words.{least};
ghost use Rattle.acfg_images.specs.Faults.{having, stray_id};
ghost use Rattle.acfg_images.specs.Code.{table_index, kind_fits, misfit, unmarked};
ghost use Rattle.acfg_images.specs.Set.{start_of, has_read_write};

use acfg_base::Kind;
use acfg_views::{FlagNode, Infos, PackageNode};
use std::alloc::AllocError;

/// The first place without a mark.
pub(crate) fn first_unmarked(marks: &[bool]) -> Option<u32>
    requires { length marks.now < 2 ^ 32 }
    ensures first { result ≡ least (λ k. not (slice_index_or marks.now k false)) 0 (length marks.now) }
    ensures within { IfSome result (λ k. k < length marks.now) }
{
    for k in 0..marks.len() {
        if !marks[k] {
            return Some(k as u32);
        }
    }
    None
}

/// Marks each number that is the id of a package.
pub(crate) fn mark_ids(marks: &mut [bool], packages: &[PackageNode<'_>])
    requires { EachIndex marks.old (λ k. slice_index_or marks.old k false ≡ false) }
    ensures { EachIndex marks.new (λ k. slice_index_or marks.new k false ≡ list_any (λ node. node.id == k)
        (mapped package_of packages.now)) }
{
    for node in packages {
        mark(marks, node.id);
    }
}

fn mark(marks: &mut [bool], k: u32)
    ensures { marks.new ≡ slice_set marks.old k true }
{
    let k = k as usize;
    if k < marks.len() {
        marks[k] = true;
    }
}

/// The first package id of a flag that is none of so many.
pub(crate) fn first_stray_id(count: usize, flags: &[FlagNode<'_>]) -> Option<u32>
    ensures { result ≡ stray_id count (mapped flag_of flags.now) }
{
    for flag in flags {
        if flag.package_id as usize >= count {
            return Some(flag.package_id);
        }
    }
    None
}

/// Writes each package's start at its id. Of packages with one id, the first counts.
pub(crate) fn put_starts(starts: &mut [u32], packages: &[PackageNode<'_>])
    requires { EachIndex starts.old (λ id. slice_index starts.old id ≡ 0) }
    ensures { EachIndex starts.new (λ id. slice_index starts.new id ≡ start_of (mapped package_of packages.now) id) }
{
    let mut i = packages.len();
    while i > 0 {
        i -= 1;
        put_start(starts, packages[i]);
    }
}

fn put_start(starts: &mut [u32], node: PackageNode<'_>)
    ensures { starts.new ≡ slice_set starts.old node.entry.id node.entry.start }
{
    let id = node.id as usize;
    if id < starts.len() {
        starts[id] = node.start;
    }
}

/// How often each number is one of these.
pub(crate) fn count_numbers(counts: &mut [u32], numbers: &[u64])
    requires none { EachIndex counts.old (λ k. slice_index counts.old k ≡ 0) }
    requires few { length numbers.now < 2 ^ 32 }
    ensures { EachIndex counts.new (λ k. slice_index counts.new k ≡ having numbers.now k) }
{
    for number in numbers {
        count_number(counts, *number);
    }
}

fn count_number(counts: &mut [u32], number: u64)
    requires { slice_index counts.old number + 1 < 2 ^ 32 }
    ensures { counts.new ≡ slice_set counts.old number (slice_index counts.old number + 1) }
{
    if number < counts.len() as u64 {
        counts[number as usize] += 1;
    }
}

/// The first place with another count than 1.
pub(crate) fn first_not_once(counts: &[u32]) -> Option<u32>
    requires { length counts.now < 2 ^ 32 }
    ensures first { result ≡ least (λ k. not (slice_index counts.now k == 1)) 0 (length counts.now) }
    ensures within { IfSome result (λ k. k < length counts.now) }
{
    for k in 0..counts.len() {
        if counts[k] != 1 {
            return Some(k as u32);
        }
    }
    None
}

/// The global index of each flag: its package's start and its index there.
pub(crate) fn global_indexes(
    mut indexes: Vec<u64>,
    starts: &[u32],
    flags: &[FlagNode<'_>],
) -> Result<Vec<u64>, AllocError>
    requires { indexes.items ≡ [] }
    ensures { IfOk result (λ indexes. indexes.items ≡ mapped (table_index starts.now) (mapped flag_of flags.now)) }
{
    for flag in flags {
        indexes.push(global_index(starts, *flag))?;
    }
    Ok(indexes)
}

fn global_index(starts: &[u32], flag: FlagNode<'_>) -> u64
    ensures { result ≡ table_index starts.now (flag_of flag.entry) }
{
    let id = flag.package_id as usize;
    let start = if id < starts.len() { starts[id] } else { 0 };
    u64::from(start) + u64::from(flag.index)
}

/// Takes the mark from each global index of a flag whose type isn't the read-write bit there.
pub(crate) fn unmark_wrong_kinds(
    marks: &mut [bool],
    infos: &Infos<'_>,
    starts: &[u32],
    flags: &[FlagNode<'_>],
)
    requires infos { length marks.old ≡ infos.now.count }
    requires all { EachIndex marks.old (λ k. slice_index_or marks.old k false ≡ true) }
    ensures { EachIndex marks.new (λ k. slice_index_or marks.new k false ≡ list_all
        (kind_fits infos.now starts.now k) (mapped flag_of flags.now)) }
{
    for flag in flags {
        unmark(marks, wrong_kind(infos, starts, *flag));
    }
}

fn unmark(marks: &mut [bool], place: Option<usize>)
    ensures { marks.new ≡ unmarked place marks.old }
{
    if let Some(k) = place
        && k < marks.len()
    {
        marks[k] = false;
    }
}

// The flag's global index, where it is below the number of infos and the read-write bit there isn't the flag's type.
fn wrong_kind(infos: &Infos<'_>, starts: &[u32], flag: FlagNode<'_>) -> Option<usize>
    ensures { result ≡ misfit infos.now starts.now (flag_of flag.entry) }
{
    let index = global_index(starts, flag);
    if index >= u64::from(infos.count()) {
        return None;
    }
    let is_read_write = flag.kind == Kind::ReadWrite;
    if has_read_write_bit(infos.at(index as u32)) == is_read_write {
        return None;
    }
    Some(index as usize)
}

fn has_read_write_bit(byte: u8) -> bool
    ensures { result ≡ has_read_write byte }
{
    byte / 2 % 2 == 1
}
