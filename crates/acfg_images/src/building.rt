//! The image of a container's flags, built.

ghost use Rattle.std.specs.Prelude.{◌≡◌, ◌≤◌, ◌<◌, ◌+◌, ◌^◌, IfOk, length, map};
ghost use Rattle.acfg_views.specs.Layout.{package_node, flag_node};
ghost use Rattle.acfg_images.specs.Image.{bucket_count};
ghost use Rattle.acfg_images.specs.Build.{Builds, built, compiled_in, compiled_lent, sized};
ghost use Rattle.acfg_images.specs.Building.{groups_of, total, grouped_image, Holds, files_in_order, map_size_of};
ghost use Rattle.acfg_images.specs.Building.{package_of, flag_of, PackagesHaveBuckets, FlagsHaveBuckets};

mod fault;
mod fields;
mod files;
mod flags;
mod groups;
mod packages;

use crate::set::ImageSet;
use acfg_base::ContainerName;
use acfg_decls::{Flag, Flags};
use acfg_sip::table_size;
use acfg_views::are_too_large;
pub use fault::BuildFault;
use files::{list_file, write_flag_map, write_package_map};
use flags::{FlagRow, flag_map_size, list_flags, list_infos, list_values, sort_flags};
use groups::{Groups, count_flags, count_lent, group, group_lent};
use packages::{PackageRow, list_packages, package_map_size, sort_packages};
use std::alloc::{AllocError, Global};

/// The most flags of a container's image.
pub const MOST_FLAGS: u64 = 50_000;

// What the files are made of: the nodes of the maps in order of their buckets, and a byte of `flag.val` and of
// `flag.info` for each flag.
#[derive(Debug, Drop)]
struct Parts<'a> {
    packages: Vec<PackageRow<'a>>,
    package_buckets: u32,
    flags: Vec<FlagRow<'a>>,
    flag_buckets: u32,
    values: Vec<u8>,
    infos: Vec<u8>,
}

/// The image of the flags of caches, in the order of the caches and within them.
///
/// # Errors
///
/// `TooManyFlags` where they are over 50,000; else `TooLarge` where the four files would have over 4,194,304 bytes
/// together; `OutOfMemory` where there was no memory.
pub fn build(
    alloc: Global,
    container: &ContainerName,
    caches: &[Flags],
) -> Result<ImageSet, BuildFault>
    ensures { Builds result (built container.now (compiled_in caches.now)) }
{
    let count = count_flags(caches);
    if count > MOST_FLAGS {
        return Err(BuildFault::TooManyFlags(count));
    }
    let groups = group(alloc, caches)?;
    build_groups(alloc, container.as_str(), &groups, count as u32)
}

/// The same of flags that are lent one by one.
///
/// # Errors
///
/// As `build`.
pub fn build_lent(
    alloc: Global,
    container: &ContainerName,
    flags: &[&Flag],
) -> Result<ImageSet, BuildFault>
    ensures { Builds result (built container.now (compiled_lent flags.now)) }
{
    let count = count_lent(flags);
    if count > MOST_FLAGS {
        return Err(BuildFault::TooManyFlags(count));
    }
    let groups = group_lent(alloc, flags)?;
    build_groups(alloc, container.as_str(), &groups, count as u32)
}

// The image of packages with so many flags.
fn build_groups(
    alloc: Global,
    container: &str,
    groups: &Groups<'_>,
    count: u32,
) -> Result<ImageSet, BuildFault>
    requires flags { total (groups_of groups.now.entries) ≡ count }
    requires few { count ≤ 50000 }
    requires packages { length groups.now.entries ≤ count }
    ensures { Builds result (sized (grouped_image container.now (groups_of groups.now.entries))) }
{
    let parts = list_parts(alloc, groups, count)?;
    build_parts(alloc, container, parts)
}

fn list_parts<'a>(alloc: Global, groups: &Groups<'a>, count: u32) -> Result<Parts<'a>, AllocError>
    requires flags { total (groups_of groups.now.entries) ≡ count }
    requires few { count ≤ 50000 }
    requires packages { length groups.now.entries ≤ count }
    ensures { IfOk result (Holds (groups_of groups.now.entries)) }
{
    let package_buckets = buckets_for(groups.len() as u32);
    let flag_buckets = buckets_for(count);
    let mut packages = list_packages(alloc, groups, package_buckets)?;
    sort_packages(&mut packages)?;
    let mut flags = list_flags(alloc, groups, count as usize, flag_buckets)?;
    let values = list_values(alloc, &flags)?;
    let infos = list_infos(alloc, &flags)?;
    sort_flags(&mut flags)?;
    Ok(Parts {
        packages,
        package_buckets,
        flags,
        flag_buckets,
        values,
        infos,
    })
}

// How many buckets a map of so many nodes has.
fn buckets_for(nodes: u32) -> u32
    requires { nodes ≤ 50000 }
    ensures count { result ≡ bucket_count nodes }
    ensures some { 0 < result }
{
    table_size(nodes).unwrap()
}

// The files of parts, where they aren't too large.
fn build_parts(alloc: Global, container: &str, parts: Parts<'_>) -> Result<ImageSet, BuildFault>
    requires packages { PackagesHaveBuckets parts.package_buckets parts.packages.items }
    requires some_package { 0 < parts.package_buckets }
    requires flags { FlagsHaveBuckets parts.flag_buckets parts.flags.items }
    requires some_flag { 0 < parts.flag_buckets }
    requires same { length parts.infos.items ≡ length parts.values.items }
    requires few { length parts.values.items ≤ 50000 }
    ensures { Builds result (sized (files_in_order container.now parts.entry)) }
{
    let package_size = package_map_size(container, &parts.packages, parts.package_buckets);
    let flag_size = flag_map_size(container, &parts.flags, parts.flag_buckets);
    let list_size = 21 + container.len() as u64 + parts.values.len() as u64;
    let size = package_size
        .saturating_add(flag_size)
        .saturating_add(list_size)
        .saturating_add(list_size);
    if are_too_large(size) {
        return Err(BuildFault::TooLarge(size));
    }
    let sizes = (package_size as u32, flag_size as u32);
    Ok(write_parts(alloc, container, parts, sizes)?)
}

// The files of parts whose maps have these sizes.
fn write_parts(
    alloc: Global,
    container: &str,
    parts: Parts<'_>,
    sizes: (u32, u32),
) -> Result<ImageSet, AllocError>
    requires packages { PackagesHaveBuckets parts.package_buckets parts.packages.items }
    requires some_package { 0 < parts.package_buckets }
    requires flags { FlagsHaveBuckets parts.flag_buckets parts.flags.items }
    requires some_flag { 0 < parts.flag_buckets }
    requires package_size { sizes.0 ≡ map_size_of package_node container.now parts.package_buckets
        (map package_of parts.packages.items) }
    requires flag_size { sizes.1 ≡ map_size_of flag_node container.now parts.flag_buckets
        (map flag_of parts.flags.items) }
    requires values { 21 + length container.now + length parts.values.items < 2 ^ 32 }
    requires infos { 21 + length container.now + length parts.infos.items < 2 ^ 32 }
    ensures { IfOk result (λ set. set ≡ files_in_order container.now parts.entry) }
{
    let Parts {
        mut packages,
        package_buckets,
        mut flags,
        flag_buckets,
        values,
        infos,
    } = parts;
    let package_map = write_package_map(alloc, container, &mut packages, package_buckets, sizes.0)?;
    let flag_map = write_flag_map(alloc, container, &mut flags, flag_buckets, sizes.1)?;
    let flag_val = list_file(alloc, container, 2, &values)?;
    let flag_info = list_file(alloc, container, 3, &infos)?;
    Ok(ImageSet::new(package_map, flag_map, flag_val, flag_info))
}
