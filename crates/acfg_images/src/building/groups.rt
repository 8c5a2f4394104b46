//! Flags grouped by their packages.

ghost use Rattle.std.specs.Prelude.{◌≡◌, ◌≤◌, IfOk, OnOk, length, map, fold};
ghost use Rattle.acfg_images.specs.Build.{compiled_flag, compiled_in, compiled_lent, told};
ghost use Rattle.acfg_images.specs.Building.{row_of, groups_of, grown, grouped};

use acfg_base::Kind;
use acfg_decls::{Flag, Flags};
use indexmap::IndexMap;
use std::alloc::{AllocError, Global};

/// A flag of an image, with names that the caches lend.
#[derive(Clone, Copy, Debug)]
pub(crate) struct Row<'a> {
    pub(crate) package: &'a str,
    pub(crate) flag: &'a str,
    pub(crate) kind: Kind,
    pub(crate) value: bool,
}

/// Packages in the order in which they first appear, each with its flags in order.
pub(crate) type Groups<'a> = IndexMap<&'a str, Vec<Row<'a>>>;

/// How many flags caches have.
pub(crate) fn count_flags(caches: &[Flags]) -> u64
    ensures { result ≡ told (length (compiled_in caches.now)) }
{
    let mut count = 0u64;
    for cache in caches {
        count = count.saturating_add(cache.list().len() as u64);
    }
    count
}

/// How many flags are lent.
pub(crate) fn count_lent(flags: &[&Flag]) -> u64
    ensures { result ≡ told (length (compiled_lent flags.now)) }
{
    flags.len() as u64
}

/// The flags of caches by their packages.
pub(crate) fn group<'a>(alloc: Global, caches: &'a [Flags]) -> Result<Groups<'a>, AllocError>
    ensures { IfOk result (λ groups. groups_of groups.entries ≡ grouped (compiled_in caches.now)) }
{
    let mut groups = IndexMap::new(alloc);
    for cache in caches {
        add_all(alloc, &mut groups, cache.list())?;
    }
    Ok(groups)
}

fn add_all<'a>(alloc: Global, groups: &mut Groups<'a>, flags: &'a [Flag]) -> Result<(), AllocError>
    ensures { OnOk result (groups_of groups.new.entries ≡ fold grown (groups_of groups.old.entries)
        (map compiled_flag flags.now)) }
{
    for flag in flags {
        add(alloc, groups, make_row(flag))?;
    }
    Ok(())
}

/// Flags that are lent one by one, by their packages.
pub(crate) fn group_lent<'a>(alloc: Global, flags: &[&'a Flag]) -> Result<Groups<'a>, AllocError>
    ensures { IfOk result (λ groups. groups_of groups.entries ≡ grouped (compiled_lent flags.now)) }
{
    let mut groups = IndexMap::new(alloc);
    for flag in flags {
        add(alloc, &mut groups, make_row(*flag))?;
    }
    Ok(groups)
}

fn make_row(flag: &Flag) -> Row<'_>
    ensures { row_of result ≡ compiled_flag flag.now }
{
    Row {
        package: flag.package.as_str(),
        flag: flag.name.as_str(),
        kind: flag.kind(),
        value: flag.enabled,
    }
}

// The groups with one more flag.
fn add<'a>(alloc: Global, groups: &mut Groups<'a>, row: Row<'a>) -> Result<(), AllocError>
    ensures { OnOk result (groups_of groups.new.entries ≡ grown (groups_of groups.old.entries) (row_of row.entry)) }
{
    if let Some(rows) = groups.get_mut(row.package) {
        rows.push(row)?;
        return Ok(());
    }
    let mut rows = Vec::new(alloc);
    rows.push(row)?;
    groups.insert(row.package, rows)?;
    Ok(())
}
