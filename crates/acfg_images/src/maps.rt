//! Whole maps: nodes, keys, buckets and links.

ghost use Rattle.std.specs.Prelude.{◌≡◌, ◌<◌, ◌^◌, IfOk, length, map as mapped};
ghost use Rattle.acfg_views.specs.Reading.{package_of, flag_of};
ghost use Rattle.acfg_images.specs.Faults.{package_part, flag_part};
ghost use Rattle.acfg_images.specs.Code.{Tells};
ghost use Rattle.acfg_images.specs.Room.{AreUnusedPackages, AreUnusedFlags, AreUnusedTables};

use crate::buckets::{
    flag_buckets, flag_first_bucket, links_fault, package_buckets, package_first_bucket,
};
use crate::fault::{FileType, ImageFault};
use crate::nodes::{Flags, Packages, read_flags, read_packages};
use crate::room::LinkTables;
use acfg_views::{FlagMap, PackageMap, Steps};
use std::sync::ledger::Ledger;

/// The packages of a set whose `package.map` has no fault behind its header.
pub(crate) fn check_packages<'a, L: Ledger>(
    room: Packages<'a>,
    tables: LinkTables<'a>,
    map: &PackageMap<'a>,
    size: u32,
    steps: &mut Steps<L>,
) -> Result<Packages<'a>, ImageFault>
    requires room { AreUnusedPackages room }
    requires tables { AreUnusedTables tables }
    requires size { size ≡ length map.now.file }
    ensures nodes { Tells (λ read. mapped package_of read.nodes.items) result (package_part map.now) }
    ensures count { IfOk result (λ read. length read.nodes.items ≡ map.now.count) }
    ensures few { IfOk result (λ read. length read.nodes.items < 2 ^ 32) }
{
    let LinkTables {
        rows,
        buckets,
        firsts,
    } = tables;
    let packages = read_packages(room, map, size, steps)?;
    let buckets = package_buckets(buckets, map)?;
    let first_bucket = package_first_bucket(map);
    let fault = links_fault(
        rows,
        firsts,
        FileType::PackageMap,
        first_bucket,
        &buckets,
        &packages.links,
    )?;
    match fault {
        Some(fault) => Err(fault),
        None => Ok(packages),
    }
}

/// The flags of a set whose `flag.map` has no fault behind its header.
pub(crate) fn check_flags<'a, L: Ledger>(
    room: Flags<'a>,
    tables: LinkTables<'a>,
    map: &FlagMap<'a>,
    size: u32,
    steps: &mut Steps<L>,
) -> Result<Flags<'a>, ImageFault>
    requires room { AreUnusedFlags room }
    requires tables { AreUnusedTables tables }
    requires size { size ≡ length map.now.file }
    ensures nodes { Tells (λ read. mapped flag_of read.nodes.items) result (flag_part map.now) }
    ensures count { IfOk result (λ read. length read.nodes.items ≡ map.now.count) }
    ensures few { IfOk result (λ read. length read.nodes.items < 2 ^ 32) }
{
    let LinkTables {
        rows,
        buckets,
        firsts,
    } = tables;
    let flags = read_flags(room, map, size, steps)?;
    let buckets = flag_buckets(buckets, map)?;
    let first_bucket = flag_first_bucket(map);
    let fault = links_fault(
        rows,
        firsts,
        FileType::FlagMap,
        first_bucket,
        &buckets,
        &flags.links,
    )?;
    match fault {
        Some(fault) => Err(fault),
        None => Ok(flags),
    }
}
