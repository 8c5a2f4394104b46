//! The four files, written.

ghost use Rattle.std.specs.Prelude.{◌≡◌, ◌<◌, ◌^◌, ◌++◌, ◌+◌, ◌*◌, IfOk, OnOk, EachIndex, length, map, slice_index};
ghost use Rattle.std.specs.List.{flat_map};
ghost use Rattle.acfg_views.specs.Fields.{number};
ghost use Rattle.acfg_views.specs.Layout.{VERSION as version_1, list_header};
ghost use Rattle.acfg_views.specs.Layout.{list_header_size, map_file, list_file as list_file_of, package_map_type};
ghost use Rattle.acfg_views.specs.Layout.{flag_map_type, package_node, flag_node};
ghost use Rattle.acfg_images.specs.Links.{package_key, flag_node_key};
ghost use Rattle.acfg_images.specs.Building.{package_of, flag_of, map_size_of, parts_in_order, package_with, flag_with};
ghost use Rattle.acfg_images.specs.Building.{PackagesHaveBuckets, FlagsHaveBuckets, new_map_header};

use super::fields::{put_string, put_u8, put_u32};
use super::flags::{FlagRow, link_flags, put_flags};
use super::packages::{PackageRow, link_packages, put_packages};
use std::alloc::{AllocError, Global};

const VERSION: u32 = 1;

/// `package.map` of nodes in order of their buckets, of a size that is known.
pub(crate) fn write_package_map(
    alloc: Global,
    container: &str,
    rows: &mut [PackageRow<'_>],
    buckets: u32,
    size: u32,
) -> Result<Vec<u8>, AllocError>
    requires buckets { PackagesHaveBuckets buckets rows.old }
    requires some { 0 < buckets }
    requires size { size ≡ map_size_of package_node container.now buckets (map package_of rows.old) }
    ensures { IfOk result (λ bytes. bytes.items ≡ map_file package_map_type package_node (parts_in_order package_node
        package_key package_with container.now buckets (map package_of rows.old))) }
{
    let mut firsts = vec![in alloc; 0u32; buckets as usize]?;
    link_package_map(alloc, container, rows, &mut firsts, size)
}

// The same, with a table of zeros for the buckets.
fn link_package_map(
    alloc: Global,
    container: &str,
    rows: &mut [PackageRow<'_>],
    firsts: &mut [u32],
    size: u32,
) -> Result<Vec<u8>, AllocError>
    requires buckets { PackagesHaveBuckets (length firsts.old) rows.old }
    requires some { 0 < length firsts.old }
    requires none { EachIndex firsts.old (λ b. slice_index firsts.old b ≡ 0) }
    requires size { size ≡ map_size_of package_node container.now (length firsts.old) (map package_of rows.old) }
    ensures { IfOk result (λ bytes. bytes.items ≡ map_file package_map_type package_node (parts_in_order package_node
        package_key package_with container.now (length firsts.old) (map package_of rows.old))) }
{
    link_packages(rows, firsts, size);
    package_map_file(alloc, container, rows, firsts, size)
}

/// `flag.map` of nodes in order of their buckets, of a size that is known.
pub(crate) fn write_flag_map(
    alloc: Global,
    container: &str,
    rows: &mut [FlagRow<'_>],
    buckets: u32,
    size: u32,
) -> Result<Vec<u8>, AllocError>
    requires buckets { FlagsHaveBuckets buckets rows.old }
    requires some { 0 < buckets }
    requires size { size ≡ map_size_of flag_node container.now buckets (map flag_of rows.old) }
    ensures { IfOk result (λ bytes. bytes.items ≡ map_file flag_map_type flag_node (parts_in_order flag_node
        flag_node_key flag_with container.now buckets (map flag_of rows.old))) }
{
    let mut firsts = vec![in alloc; 0u32; buckets as usize]?;
    link_flag_map(alloc, container, rows, &mut firsts, size)
}

// The same, with a table of zeros for the buckets.
fn link_flag_map(
    alloc: Global,
    container: &str,
    rows: &mut [FlagRow<'_>],
    firsts: &mut [u32],
    size: u32,
) -> Result<Vec<u8>, AllocError>
    requires buckets { FlagsHaveBuckets (length firsts.old) rows.old }
    requires some { 0 < length firsts.old }
    requires none { EachIndex firsts.old (λ b. slice_index firsts.old b ≡ 0) }
    requires size { size ≡ map_size_of flag_node container.now (length firsts.old) (map flag_of rows.old) }
    ensures { IfOk result (λ bytes. bytes.items ≡ map_file flag_map_type flag_node (parts_in_order flag_node
        flag_node_key flag_with container.now (length firsts.old) (map flag_of rows.old))) }
{
    link_flags(rows, firsts, size);
    flag_map_file(alloc, container, rows, firsts, size)
}

// The bytes of `package.map`, of a size that is known.
#[tactic(auto, unfolding(acfg_views::specs::Layout::map_file))]
fn package_map_file(
    alloc: Global,
    container: &str,
    rows: &[PackageRow<'_>],
    buckets: &[u32],
    size: u32,
) -> Result<Vec<u8>, AllocError>
    requires { size ≡ map_size_of package_node container.now (length buckets.now) (map package_of rows.now) }
    ensures { IfOk result (λ bytes. bytes.items ≡ map_file package_map_type package_node (record {
      version = version_1;
      container = container.now;
      buckets = buckets.now;
      nodes = map package_of rows.now;
    })) }
{
    let mut out = Vec::with_capacity(alloc, size as usize)?;
    put_map_header(
        &mut out,
        container,
        0,
        size,
        rows.len() as u32,
        buckets.len() as u32,
    )?;
    put_numbers(&mut out, buckets)?;
    put_packages(&mut out, rows)?;
    Ok(out)
}

// The bytes of `flag.map`, of a size that is known.
#[tactic(auto, unfolding(acfg_views::specs::Layout::map_file))]
fn flag_map_file(
    alloc: Global,
    container: &str,
    rows: &[FlagRow<'_>],
    buckets: &[u32],
    size: u32,
) -> Result<Vec<u8>, AllocError>
    requires { size ≡ map_size_of flag_node container.now (length buckets.now) (map flag_of rows.now) }
    ensures { IfOk result (λ bytes. bytes.items ≡ map_file flag_map_type flag_node (record {
      version = version_1;
      container = container.now;
      buckets = buckets.now;
      nodes = map flag_of rows.now;
    })) }
{
    let mut out = Vec::with_capacity(alloc, size as usize)?;
    put_map_header(
        &mut out,
        container,
        1,
        size,
        rows.len() as u32,
        buckets.len() as u32,
    )?;
    put_numbers(&mut out, buckets)?;
    put_flags(&mut out, rows)?;
    Ok(out)
}

/// The bytes of `flag.val` or `flag.info`.
#[tactic(auto, unfolding(acfg_views::specs::Layout::list_file))]
pub(crate) fn list_file(
    alloc: Global,
    container: &str,
    file_type: u8,
    bytes: &[u8],
) -> Result<Vec<u8>, AllocError>
    requires { 21 + length container.now + length bytes.now < 2 ^ 32 }
    ensures { IfOk result (λ file. file.items ≡ list_file_of file_type (record {
      version = version_1;
      container = container.now;
      bytes = bytes.now;
    })) }
{
    let first = 21 + container.len() as u32;
    let size = first + bytes.len() as u32;
    let mut out = Vec::with_capacity(alloc, size as usize)?;
    put_list_header(&mut out, container, file_type, size, bytes.len() as u32)?;
    out.extend_from_slice(bytes)?;
    Ok(out)
}

#[tactic(auto, unfolding(acfg_views::specs::Layout::map_header))]
fn put_map_header(
    out: &mut Vec<u8>,
    container: &str,
    file_type: u8,
    size: u32,
    count: u32,
    buckets: u32,
) -> Result<(), AllocError>
    requires { 25 + length container.now + 4 * buckets < 2 ^ 32 }
    ensures { OnOk result (out.new.items
        ≡ out.old.items ++ new_map_header container.now file_type size count buckets) }
{
    let first_bucket = 25 + container.len() as u32;
    put_u32(out, VERSION)?;
    put_string(out, container)?;
    put_u8(out, file_type)?;
    put_u32(out, size)?;
    put_u32(out, count)?;
    put_u32(out, first_bucket)?;
    put_u32(out, first_bucket + 4 * buckets)
}

#[tactic(auto, unfolding(acfg_views::specs::Layout::list_header))]
fn put_list_header(
    out: &mut Vec<u8>,
    container: &str,
    file_type: u8,
    size: u32,
    count: u32,
) -> Result<(), AllocError>
    requires { 21 + length container.now < 2 ^ 32 }
    ensures { OnOk result (out.new.items ≡ out.old.items ++ list_header version_1 container.now file_type size count
        (list_header_size container.now)) }
{
    put_u32(out, VERSION)?;
    put_string(out, container)?;
    put_u8(out, file_type)?;
    put_u32(out, size)?;
    put_u32(out, count)?;
    put_u32(out, 21 + container.len() as u32)
}

fn put_numbers(out: &mut Vec<u8>, numbers: &[u32]) -> Result<(), AllocError>
    ensures { OnOk result (out.new.items ≡ out.old.items ++ flat_map (number 4) numbers.now) }
{
    for n in numbers {
        put_u32(out, *n)?;
    }
    Ok(())
}
