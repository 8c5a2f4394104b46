//! The nodes of `package.map`: numbered, in order of their buckets, linked and written.

ghost use Rattle.std.specs.Prelude.{◌≡◌, ◌<◌, ◌≤◌, ◌+◌, ◌-◌, ◌*◌, ◌^◌, ◌++◌, ℕ, IfOk, OnOk, EachIndex, length, map};
ghost use Rattle.std.specs.Prelude.{slice_index, slice_set, slice_index_or, IsPermutation};
ghost use Rattle.std.specs.List.{flat_map};
ghost use Rattle.std.specs.List.Sorted.{IsSortedByKey, IsStableByKey};
ghost use Rattle.std.specs.Ordering.{nat_cmp};
ghost use Rattle.acfg_views.specs.Layout.{package_node};
ghost use Rattle.acfg_images.specs.Links.{package_key, first_in};
ghost use Rattle.acfg_images.specs.Image.{by_bucket};
ghost use Rattle.acfg_images.specs.Build.{told};
ghost use Rattle.acfg_images.specs.Building.{groups_of, total, packages_from, package_of, PackagesHaveBuckets};
ghost use Rattle.acfg_images.specs.Building.{linked_packages, unlinked_packages, led_package, map_size_of};
ghost use Rattle.acfg_images.specs.declared.building.packages.PackageRow.{PackageRow as Row};

use super::fields::{put_string, put_u32};
use super::groups::Groups;
use acfg_sip::{bucket, lead};
use std::alloc::{AllocError, Global};

/// How long a node is without its name.
const NODE_SIZE: u32 = 16;

/// A node of `package.map` and its bucket.
#[derive(Clone, Copy, Debug)]
pub(crate) struct PackageRow<'a> {
    pub(crate) name: &'a str,
    pub(crate) id: u32,
    pub(crate) start: u32,
    pub(crate) bucket: u32,
    pub(crate) next: u32,
}

/// The nodes in order of their ids, without links, for so many buckets.
pub(crate) fn list_packages<'a>(
    alloc: Global,
    groups: &Groups<'a>,
    buckets: u32,
) -> Result<Vec<PackageRow<'a>>, AllocError>
    requires some { 0 < buckets }
    requires packages { length groups.now.entries ≤ 50000 }
    requires flags { total (groups_of groups.now.entries) ≤ 50000 }
    ensures nodes { IfOk result (λ rows. map package_of rows.items ≡ packages_from 0 0
        (groups_of groups.now.entries)) }
    ensures buckets { IfOk result (λ rows. PackagesHaveBuckets buckets rows.items) }
{
    let mut rows = Vec::with_capacity(alloc, groups.len())?;
    let mut id = 0;
    let mut start = 0;
    for (name, flags) in groups.iter() {
        rows.push(PackageRow {
            name,
            id,
            start,
            bucket: bucket(name.as_bytes(), buckets),
            next: 0,
        })?;
        id += 1;
        start += flags.len() as u32;
    }
    Ok(rows)
}

/// Sorts nodes by their buckets. Those of one bucket stay as they stood.
pub(crate) fn sort_packages(rows: &mut Vec<PackageRow<'_>>) -> Result<(), AllocError>
    ensures order { OnOk result ((count : ℕ) → 0 < count → PackagesHaveBuckets count rows.old.items →
        map package_of rows.new.items ≡ by_bucket package_key count (map package_of rows.old.items)) }
    ensures buckets { OnOk result ((count : ℕ) → PackagesHaveBuckets count rows.old.items →
        PackagesHaveBuckets count rows.new.items) }
{
    sort_by_bucket(rows)?;
    Ok(())
}

fn sort_by_bucket(rows: &mut Vec<PackageRow<'_>>) -> Result<(), AllocError>
    ensures sorted { OnOk result (IsSortedByKey (λ (row : Row). row.bucket) nat_cmp rows.new.items) }
    ensures stable { OnOk result (IsStableByKey (λ (row : Row). row.bucket) nat_cmp rows.old.items rows.new.items) }
    ensures permutation { OnOk result (IsPermutation rows.old.items rows.new.items) }
{
    rows.sort_by_key(|row| row.bucket)?;
    Ok(())
}

/// How long `package.map` is with these nodes.
pub(crate) fn package_map_size(container: &str, rows: &[PackageRow<'_>], buckets: u32) -> u64
    ensures { result ≡ told (map_size_of package_node container.now buckets (map package_of rows.now)) }
{
    let mut size = 25 + container.len() as u64 + 4 * u64::from(buckets);
    for row in rows {
        size = size.saturating_add(16 + row.name.len() as u64);
    }
    size
}

/// Links nodes that end at a place, and keeps for each bucket where its first node stands.
pub(crate) fn link_packages(rows: &mut [PackageRow<'_>], firsts: &mut [u32], end: u32)
    requires buckets { PackagesHaveBuckets (length firsts.old) rows.old }
    requires some { 0 < length firsts.old }
    requires none { EachIndex firsts.old (λ b. slice_index firsts.old b ≡ 0) }
    requires room { length (flat_map package_node (map package_of rows.old)) ≤ end }
    ensures nodes { let nodes = map package_of rows.old in
        map package_of rows.new ≡ linked_packages (length firsts.old)
        (end - length (flat_map package_node nodes)) nodes }
    ensures firsts { let nodes = map package_of rows.old in
        EachIndex firsts.new (λ b. slice_index firsts.new b ≡ first_in (length firsts.old) b
        (unlinked_packages (end - length (flat_map package_node nodes)) nodes)) }
{
    let mut at = end;
    let mut i = rows.len();
    while i > 0 {
        i -= 1;
        at -= NODE_SIZE + rows[i].name.len() as u32;
        link(rows, firsts, i, at);
    }
}

// Links the node at an index, which stands at a place, to the first node of its bucket so far. It is the first one
// from now on.
fn link(rows: &mut [PackageRow<'_>], firsts: &mut [u32], i: usize, at: u32)
    requires within { i < length rows.old }
    requires bucket { (d : Row) → (slice_index_or rows.old i d).bucket < length firsts.old }
    ensures rows { (d : Row) → rows.new ≡ slice_set rows.old i (led_package firsts.old (slice_index_or rows.old i d)) }
    ensures first { (d : Row) → firsts.new ≡ slice_set firsts.old (slice_index_or rows.old i d).bucket at }
{
    let mut row = rows[i];
    row.next = lead(firsts, row.bucket, at);
    rows[i] = row;
}

/// Writes nodes.
pub(crate) fn put_packages(out: &mut Vec<u8>, rows: &[PackageRow<'_>]) -> Result<(), AllocError>
    requires { length (flat_map package_node (map package_of rows.now)) < 2 ^ 32 }
    ensures { OnOk result (out.new.items ≡ out.old.items ++ flat_map package_node (map package_of rows.now)) }
{
    for row in rows {
        put_package(out, *row)?;
    }
    Ok(())
}

#[tactic(auto, unfolding(acfg_views::specs::Layout::package_node))]
fn put_package(out: &mut Vec<u8>, row: PackageRow<'_>) -> Result<(), AllocError>
    requires { length row.name.now < 2 ^ 32 }
    ensures { OnOk result (out.new.items ≡ out.old.items ++ package_node (package_of row.entry)) }
{
    put_string(out, row.name)?;
    put_u32(out, row.id)?;
    put_u32(out, row.start)?;
    put_u32(out, row.next)
}
