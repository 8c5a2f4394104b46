//! The buckets of a map.

ghost use Rattle.std.specs.Prelude.{◌≡◌, [], ◌<◌, ◌+◌, ◌*◌, ◌^◌, IfOk, length};
ghost use Rattle.acfg_views.specs.Reading.{bucket_count};
ghost use Rattle.acfg_images.specs.Faults.{buckets_in, wrong_links};
ghost use Rattle.acfg_images.specs.Code.{HaveBuckets, links_of};
ghost use Rattle.acfg_images.specs.Twins.{Rise};

use crate::chains::first_wrong;
use crate::fault::{FileType, ImageFault};
use crate::links::NodeLink;
use crate::twins::{Row, first_twice};
use acfg_views::{FlagMap, PackageMap};
use std::alloc::AllocError;

/// What stands in the buckets of `package.map`.
pub(crate) fn package_buckets(
    mut buckets: Vec<u32>,
    map: &PackageMap<'_>,
) -> Result<Vec<u32>, AllocError>
    requires { buckets.items ≡ [] }
    ensures { IfOk result (λ buckets. buckets.items ≡ buckets_in map.now) }
{
    for b in 0..map.buckets() {
        buckets.push(map.bucket_at(b))?;
    }
    Ok(buckets)
}

/// What stands in the buckets of `flag.map`.
pub(crate) fn flag_buckets(mut buckets: Vec<u32>, map: &FlagMap<'_>) -> Result<Vec<u32>, AllocError>
    requires { buckets.items ≡ [] }
    ensures { IfOk result (λ buckets. buckets.items ≡ buckets_in map.now) }
{
    for b in 0..map.buckets() {
        buckets.push(map.bucket_at(b))?;
    }
    Ok(buckets)
}

/// Where the buckets of `package.map` begin.
pub(crate) fn package_first_bucket(map: &PackageMap<'_>) -> u32
    ensures place { result ≡ map.now.first_bucket }
    ensures room { result + 4 * bucket_count map.now < 2 ^ 32 }
    ensures some { 0 < bucket_count map.now }
{
    map.first_node() - 4 * map.buckets()
}

/// Where the buckets of `flag.map` begin.
pub(crate) fn flag_first_bucket(map: &FlagMap<'_>) -> u32
    ensures place { result ≡ map.now.first_bucket }
    ensures room { result + 4 * bucket_count map.now < 2 ^ 32 }
    ensures some { 0 < bucket_count map.now }
{
    map.first_node() - 4 * map.buckets()
}

/// The first fault among the keys of a map's nodes, or else among its buckets and links.
pub(crate) fn links_fault<'a>(
    rows: Vec<Row<'a>>,
    firsts: Vec<u32>,
    file: FileType,
    first_bucket: u32,
    buckets: &[u32],
    links: &[NodeLink<'a>],
) -> Result<Option<ImageFault>, AllocError>
    requires rows { rows.items ≡ [] }
    requires firsts { firsts.items ≡ [] }
    requires buckets { HaveBuckets (length buckets.now) links.now }
    requires some { 0 < length buckets.now }
    requires room { first_bucket + 4 * length buckets.now < 2 ^ 32 }
    requires rising { Rise (links_of links.now) }
    ensures { IfOk result (λ fault. fault ≡ wrong_links file first_bucket buckets.now (links_of links.now)) }
{
    if let Some(at) = first_twice(rows, links)? {
        return Ok(Some(ImageFault::Twice(file, at)));
    }
    match first_wrong(firsts, first_bucket, buckets, links)? {
        Some(at) => Ok(Some(ImageFault::Chain(file, at))),
        None => Ok(None),
    }
}
