//! The nodes of `flag.map`: numbered, in order of their buckets, linked and written.

ghost use Rattle.std.specs.Prelude.{◌≡◌, ◌<◌, ◌≤◌, ◌+◌, ◌-◌, ◌*◌, ◌^◌, ◌++◌, ℕ, IfOk, OnOk, EachIndex, length, map};
ghost use Rattle.std.specs.Prelude.{slice_index, slice_set, slice_index_or, IsPermutation};
ghost use Rattle.std.specs.List.{flat_map};
ghost use Rattle.std.specs.List.Sorted.{IsSortedByKey, IsStableByKey};
ghost use Rattle.std.specs.Ordering.{nat_cmp};
ghost use Rattle.acfg_base.specs.Release.{kind_number as number_of_kind};
ghost use Rattle.acfg_views.specs.Layout.{flag_node};
ghost use Rattle.acfg_images.specs.Links.{flag_node_key, first_in};
ghost use Rattle.acfg_images.specs.Image.{by_bucket};
ghost use Rattle.acfg_images.specs.Build.{told};
ghost use Rattle.acfg_images.specs.Building.{row_of, groups_of, total, flags_from, all_flags, flag_nodes_from, flag_of};
ghost use Rattle.acfg_images.specs.Building.{source_of, FlagsHaveBuckets, linked_flags, unlinked_flags, led_flag};
ghost use Rattle.acfg_images.specs.Building.{map_size_of, value_byte, info_byte, FlagHasBucket};
ghost use Rattle.acfg_images.specs.declared.building.flags.FlagRow.{FlagRow as Placed};

use super::fields::{put_string, put_u16, put_u32};
use super::groups::{Groups, Row};
use acfg_base::Kind;
use acfg_sip::{flag_bucket, lead};
use acfg_views::new_info;
use std::alloc::{AllocError, Global};

/// How long a node is without its name.
const NODE_SIZE: u32 = 16;

/// A node of `flag.map` with its bucket and the flag that it is made of.
#[derive(Clone, Copy, Debug)]
pub(crate) struct FlagRow<'a> {
    pub(crate) row: Row<'a>,
    pub(crate) package_id: u32,
    pub(crate) index: u16,
    pub(crate) bucket: u32,
    pub(crate) next: u32,
}

/// The nodes in order of their global indexes, without links, for so many buckets.
pub(crate) fn list_flags<'a>(
    alloc: Global,
    groups: &Groups<'a>,
    count: usize,
    buckets: u32,
) -> Result<Vec<FlagRow<'a>>, AllocError>
    requires some { 0 < buckets }
    requires packages { length groups.now.entries ≤ 50000 }
    requires flags { total (groups_of groups.now.entries) ≤ 50000 }
    ensures nodes { IfOk result (λ rows. map flag_of rows.items ≡ flag_nodes_from 0 (groups_of groups.now.entries)) }
    ensures sources { IfOk result (λ rows. map source_of rows.items ≡ all_flags (groups_of groups.now.entries)) }
    ensures buckets { IfOk result (λ rows. FlagsHaveBuckets buckets rows.items) }
{
    let mut rows = Vec::with_capacity(alloc, count)?;
    let mut id = 0;
    for (_, flags) in groups.iter() {
        push_flags(&mut rows, id, flags, buckets)?;
        id += 1;
    }
    Ok(rows)
}

// Adds the nodes of one package's flags.
fn push_flags<'a>(
    rows: &mut Vec<FlagRow<'a>>,
    id: u32,
    flags: &[Row<'a>],
    buckets: u32,
) -> Result<(), AllocError>
    requires some { 0 < buckets }
    requires few { length flags.now < 2 ^ 16 }
    ensures nodes { OnOk result (map flag_of rows.new.items ≡ map flag_of rows.old.items ++ flags_from id 0
        (map row_of flags.now)) }
    ensures sources { OnOk result (map source_of rows.new.items ≡ map source_of rows.old.items
        ++ map row_of flags.now) }
    ensures buckets { OnOk result (FlagsHaveBuckets buckets rows.old.items → FlagsHaveBuckets buckets rows.new.items) }
{
    let mut index = 0;
    for flag in flags {
        rows.push(make_flag(*flag, id, index, buckets))?;
        index += 1;
    }
    Ok(())
}

fn make_flag(row: Row<'_>, package_id: u32, index: u16, buckets: u32) -> FlagRow<'_>
    requires { 0 < buckets }
    ensures node { flag_of result ≡ record {
      package_id = package_id;
      name = row.entry.flag.now;
      kind = row.entry.kind;
      index = index;
      next = 0;
    } }
    ensures source { source_of result ≡ row_of row.entry }
    ensures bucket { FlagHasBucket buckets result }
{
    FlagRow {
        row,
        package_id,
        index,
        bucket: flag_bucket(package_id, row.flag.as_bytes(), buckets),
        next: 0,
    }
}

/// The bytes of `flag.val`: 1 for a flag that is true.
pub(crate) fn list_values(alloc: Global, rows: &[FlagRow<'_>]) -> Result<Vec<u8>, AllocError>
    ensures { IfOk result (λ bytes. bytes.items ≡ map value_byte (map source_of rows.now)) }
{
    let mut bytes = Vec::with_capacity(alloc, rows.len())?;
    for row in rows {
        bytes.push(u8::from(row.row.value))?;
    }
    Ok(bytes)
}

/// The bytes of `flag.info`: 2 for a flag that is read-write.
pub(crate) fn list_infos(alloc: Global, rows: &[FlagRow<'_>]) -> Result<Vec<u8>, AllocError>
    ensures { IfOk result (λ bytes. bytes.items ≡ map info_byte (map source_of rows.now)) }
{
    let mut bytes = Vec::with_capacity(alloc, rows.len())?;
    for row in rows {
        bytes.push(new_info(row.row.kind))?;
    }
    Ok(bytes)
}

/// Sorts nodes by their buckets. Those of one bucket stay as they stood.
pub(crate) fn sort_flags(rows: &mut Vec<FlagRow<'_>>) -> Result<(), AllocError>
    ensures order { OnOk result ((count : ℕ) → 0 < count → FlagsHaveBuckets count rows.old.items →
        map flag_of rows.new.items ≡ by_bucket flag_node_key count (map flag_of rows.old.items)) }
    ensures buckets { OnOk result ((count : ℕ) → FlagsHaveBuckets count rows.old.items →
        FlagsHaveBuckets count rows.new.items) }
{
    sort_by_bucket(rows)?;
    Ok(())
}

fn sort_by_bucket(rows: &mut Vec<FlagRow<'_>>) -> Result<(), AllocError>
    ensures sorted { OnOk result (IsSortedByKey (λ (row : Placed). row.bucket) nat_cmp rows.new.items) }
    ensures stable { OnOk result (IsStableByKey (λ (row : Placed). row.bucket) nat_cmp rows.old.items rows.new.items) }
    ensures permutation { OnOk result (IsPermutation rows.old.items rows.new.items) }
{
    rows.sort_by_key(|row| row.bucket)?;
    Ok(())
}

/// How long `flag.map` is with these nodes.
pub(crate) fn flag_map_size(container: &str, rows: &[FlagRow<'_>], buckets: u32) -> u64
    ensures { result ≡ told (map_size_of flag_node container.now buckets (map flag_of rows.now)) }
{
    let mut size = 25 + container.len() as u64 + 4 * u64::from(buckets);
    for row in rows {
        size = size.saturating_add(16 + row.row.flag.len() as u64);
    }
    size
}

/// Links nodes that end at a place, and keeps for each bucket where its first node stands.
pub(crate) fn link_flags(rows: &mut [FlagRow<'_>], firsts: &mut [u32], end: u32)
    requires buckets { FlagsHaveBuckets (length firsts.old) rows.old }
    requires some { 0 < length firsts.old }
    requires none { EachIndex firsts.old (λ b. slice_index firsts.old b ≡ 0) }
    requires room { length (flat_map flag_node (map flag_of rows.old)) ≤ end }
    ensures nodes { let nodes = map flag_of rows.old in
        map flag_of rows.new ≡ linked_flags (length firsts.old) (end - length (flat_map flag_node nodes)) nodes }
    ensures firsts { let nodes = map flag_of rows.old in
        EachIndex firsts.new (λ b. slice_index firsts.new b ≡ first_in (length firsts.old) b
        (unlinked_flags (end - length (flat_map flag_node nodes)) nodes)) }
{
    let mut at = end;
    let mut i = rows.len();
    while i > 0 {
        i -= 1;
        at -= NODE_SIZE + rows[i].row.flag.len() as u32;
        link(rows, firsts, i, at);
    }
}

// Links the node at an index, which stands at a place, to the first node of its bucket so far. It is the first one
// from now on.
fn link(rows: &mut [FlagRow<'_>], firsts: &mut [u32], i: usize, at: u32)
    requires within { i < length rows.old }
    requires bucket { (d : Placed) → (slice_index_or rows.old i d).bucket < length firsts.old }
    ensures rows { (d : Placed) → rows.new ≡ slice_set rows.old i (led_flag firsts.old (slice_index_or rows.old i d)) }
    ensures first { (d : Placed) → firsts.new ≡ slice_set firsts.old (slice_index_or rows.old i d).bucket at }
{
    let mut row = rows[i];
    row.next = lead(firsts, row.bucket, at);
    rows[i] = row;
}

/// Writes nodes.
pub(crate) fn put_flags(out: &mut Vec<u8>, rows: &[FlagRow<'_>]) -> Result<(), AllocError>
    requires { length (flat_map flag_node (map flag_of rows.now)) < 2 ^ 32 }
    ensures { OnOk result (out.new.items ≡ out.old.items ++ flat_map flag_node (map flag_of rows.now)) }
{
    for row in rows {
        put_flag(out, *row)?;
    }
    Ok(())
}

#[tactic(auto, unfolding(acfg_views::specs::Layout::flag_node))]
fn put_flag(out: &mut Vec<u8>, row: FlagRow<'_>) -> Result<(), AllocError>
    requires { length row.row.flag.now < 2 ^ 32 }
    ensures { OnOk result (out.new.items ≡ out.old.items ++ flag_node (flag_of row.entry)) }
{
    put_u32(out, row.package_id)?;
    put_string(out, row.row.flag)?;
    put_u16(out, kind_number(row.row.kind))?;
    put_u16(out, row.index)?;
    put_u32(out, row.next)
}

fn kind_number(kind: Kind) -> u16
    ensures { result ≡ number_of_kind kind }
{
    match kind {
        Kind::ReadWrite => 0,
        Kind::ReadOnly => 1,
        Kind::Fixed => 2,
    }
}
