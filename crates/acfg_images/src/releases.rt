//! The release that a set holds.

ghost use Rattle.std.specs.Prelude.{◌≡◌, ◌<◌, IfOk, IsSome, All, EachIndex, length, map as mapped, None, Some};
ghost use Rattle.std.specs.Prelude.{slice_index_or, slice_set};
ghost use Rattle.acfg_base.specs.Names.{IsName, IsPackage};
ghost use Rattle.acfg_views.specs.Reading.{package_of, flag_of};
ghost use Rattle.acfg_images.specs.Faults.{packages_in, flags_in};
ghost use Rattle.acfg_images.specs.Laws.{release_of};
ghost use Rattle.acfg_images.specs.Listing.{HasPackages, IsListable, entry_in};

use crate::checked::Checked;
use crate::nodes::{Flags, Packages, read_flags, read_packages};
use acfg_base::{Entry, Name, OutOfMemory, PackageName, Release};
use acfg_views::{FlagNode, PackageNode, Steps};
use std::alloc::{AllocError, Global};
use std::marker::Brand;
use std::sync::ledger::{Blank, Ledger};

/// The release that the set holds: each flag's kind and value.
///
/// # Errors
///
/// `OutOfMemory` where memory is refused.
pub fn flags_of(alloc: Global, set: &Checked<'_>) -> Result<Release, OutOfMemory>
    ensures { IfOk result (λ release. release ≡ release_of set.now) }
{
    read_release::<Brand>(alloc, set, Blank::new(1))
}

fn read_release<L: Ledger>(
    alloc: Global,
    set: &Checked<'_>,
    blank: Blank,
) -> Result<Release, OutOfMemory>
    requires name { blank.name ≡ L.name }
    requires parts { blank.parts ≡ L.parts }
    requires one { L.parts ≡ 1 }
    ensures { IfOk result (λ release. release ≡ release_of set.now) }
{
    let mut steps = Steps::<L>::new(blank);
    let size = set.set().package_map().len() as u32;
    let packages = match read_packages(Packages::new(alloc), set.package_view(), size, &mut steps) {
        Ok(packages) => packages.nodes,
        Err(_) => return Err(OutOfMemory),
    };
    let size = set.set().flag_map().len() as u32;
    let flags = match read_flags(Flags::new(alloc), set.flag_view(), size, &mut steps) {
        Ok(flags) => flags.nodes,
        Err(_) => return Err(OutOfMemory),
    };
    list_release(alloc, set, &packages, &flags)
}

// The release of a set whose nodes are these.
fn list_release(
    alloc: Global,
    set: &Checked<'_>,
    packages: &[PackageNode<'_>],
    flags: &[FlagNode<'_>],
) -> Result<Release, OutOfMemory>
    requires packages { packages_in set.now ≡ mapped package_of packages.now }
    requires flags { flags_in set.now ≡ mapped flag_of flags.now }
    ensures { IfOk result (λ release. release ≡ release_of set.now) }
{
    set.are_open();
    let _files = set.set();
    let table = packages_by_id(alloc, packages)?;
    let entries = list_entries(alloc, set, &table, flags)?;
    match Release::new(alloc, entries)? {
        Some(release) => Ok(release),
        None => unreachable!(),
    }
}

// The packages, each at its id.
fn packages_by_id<'a>(
    alloc: Global,
    packages: &[PackageNode<'a>],
) -> Result<Vec<Option<PackageNode<'a>>>, AllocError>
    ensures size { IfOk result (λ table. length table.items ≡ length packages.now) }
    ensures table { IfOk result (λ table. HasPackages table.items (mapped package_of packages.now)) }
{
    let mut table = vec![in alloc; None; packages.len()]?;
    put_packages(&mut table, packages);
    Ok(table)
}

// Writes each package at its id. Of packages with one id, the first counts.
fn put_packages<'a>(table: &mut [Option<PackageNode<'a>>], packages: &[PackageNode<'a>])
    requires { EachIndex table.old (λ id. slice_index_or table.old id None ≡ None) }
    ensures { HasPackages table.new (mapped package_of packages.now) }
{
    let mut i = packages.len();
    while i > 0 {
        i -= 1;
        put_package(table, packages[i]);
    }
}

fn put_package<'a>(table: &mut [Option<PackageNode<'a>>], node: PackageNode<'a>)
    ensures { table.new ≡ slice_set table.old node.entry.id (Some node.entry) }
{
    let id = node.id as usize;
    if id < table.len() {
        table[id] = Some(node);
    }
}

// The entries of flags, in file order.
fn list_entries(
    alloc: Global,
    set: &Checked<'_>,
    table: &[Option<PackageNode<'_>>],
    flags: &[FlagNode<'_>],
) -> Result<Vec<Entry>, OutOfMemory>
    requires size { length table.now ≡ length (packages_in set.now) }
    requires table { HasPackages table.now (packages_in set.now) }
    requires listable { All (IsListable set.now) (mapped flag_of flags.now) }
    ensures { IfOk result (λ entries. entries.items ≡ mapped (entry_in set.now) (mapped flag_of flags.now)) }
{
    let mut entries = Vec::with_capacity(alloc, flags.len())?;
    for flag in flags {
        entries.push(make_entry(alloc, set, table, *flag)?)?;
    }
    Ok(entries)
}

fn make_entry(
    alloc: Global,
    set: &Checked<'_>,
    table: &[Option<PackageNode<'_>>],
    flag: FlagNode<'_>,
) -> Result<Entry, OutOfMemory>
    requires size { length table.now ≡ length (packages_in set.now) }
    requires table { HasPackages table.now (packages_in set.now) }
    requires listable { IsListable set.now (flag_of flag) }
    ensures { IfOk result (λ entry. entry ≡ entry_in set.now (flag_of flag.entry)) }
{
    set.are_open();
    let node = package_in(table, flag.package_id);
    let index = node.start + u32::from(flag.index);
    Ok(Entry {
        package: package_name(alloc, node.name)?,
        flag: flag_name(alloc, flag.name)?,
        kind: flag.kind,
        value: set.value_at(index),
    })
}

// The package that a table has at an id.
fn package_in<'a>(table: &[Option<PackageNode<'a>>], id: u32) -> PackageNode<'a>
    requires within { id < length table.now }
    requires some { IsSome (slice_index_or table.now id None) }
    ensures { Some result ≡ slice_index_or table.now id None }
{
    match table[id as usize] {
        Some(node) => node,
        None => unreachable!(),
    }
}

fn package_name(alloc: Global, text: &str) -> Result<PackageName, OutOfMemory>
    requires { IsPackage text.now }
    ensures { IfOk result (λ name. name ≡ text.now) }
{
    match PackageName::parse(alloc, text)? {
        Some(name) => Ok(name),
        None => unreachable!(),
    }
}

fn flag_name(alloc: Global, text: &str) -> Result<Name, OutOfMemory>
    requires { IsName text.now }
    ensures { IfOk result (λ name. name ≡ text.now) }
{
    match Name::parse(alloc, text)? {
        Some(name) => Ok(name),
        None => unreachable!(),
    }
}
