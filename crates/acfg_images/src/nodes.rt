//! The nodes of a map, read one after another.

ghost use Rattle.std.specs.Prelude.{◌≡◌, ◌<◌, ◌^◌, ℕ, IfOk, length, map as mapped};
ghost use Rattle.acfg_views.specs.Reading.{package_at, package_of, flag_at, flag_of, bucket_count};
ghost use Rattle.acfg_images.specs.declared.fault.FileType.TheVariants.{PackageMap as package_map, FlagMap as flag_map};
ghost use Rattle.acfg_images.specs.Faults.{nodes_in, nodes_of};
ghost use Rattle.acfg_images.specs.Links.{package_links, flag_links};
ghost use Rattle.acfg_images.specs.Code.{Tells, HaveBuckets, links_of};
ghost use Rattle.acfg_images.specs.Room.{AreUnusedPackages, AreUnusedFlags};

use crate::fault::{FileType, ImageFault};
use crate::links::NodeLink;
use acfg_sip::{bucket, flag_bucket};
use acfg_views::{FlagMap, FlagNode, PackageMap, PackageNode, Steps};
use std::alloc::Global;
use std::sync::ledger::Ledger;

/// The packages of a set, in file order, each with its link.
#[derive(Debug, Drop)]
pub(crate) struct Packages<'a> {
    pub(crate) nodes: Vec<PackageNode<'a>>,
    pub(crate) links: Vec<NodeLink<'a>>,
}

impl<'a> Packages<'a> {
    /// No packages yet.
    pub(crate) fn new(alloc: Global) -> Packages<'a>
        ensures { AreUnusedPackages result }
    {
        Packages {
            nodes: Vec::new(alloc),
            links: Vec::new(alloc),
        }
    }
}

/// The flags of a set, in file order, each with its link.
#[derive(Debug, Drop)]
pub(crate) struct Flags<'a> {
    pub(crate) nodes: Vec<FlagNode<'a>>,
    pub(crate) links: Vec<NodeLink<'a>>,
}

impl<'a> Flags<'a> {
    /// No flags yet.
    pub(crate) fn new(alloc: Global) -> Flags<'a>
        ensures { AreUnusedFlags result }
    {
        Flags {
            nodes: Vec::new(alloc),
            links: Vec::new(alloc),
        }
    }
}

/// Reads the nodes of `package.map`, up to the first place where one is refused or bytes stand behind the last one.
pub(crate) fn read_packages<'a, L: Ledger>(
    room: Packages<'a>,
    map: &PackageMap<'a>,
    size: u32,
    steps: &mut Steps<L>,
) -> Result<Packages<'a>, ImageFault>
    requires room { AreUnusedPackages room }
    requires size { size ≡ length map.now.file }
    ensures nodes { Tells (λ read. mapped package_of read.nodes.items) result (nodes_of package_map size
        (nodes_in package_at map.now)) }
    ensures links { IfOk result (λ read. links_of read.links.items ≡ package_links map.now.first_node
        (mapped package_of read.nodes.items)) }
    ensures buckets { IfOk result (λ read. HaveBuckets (bucket_count map.now) read.links.items) }
    ensures count { IfOk result (λ read. length read.nodes.items ≡ map.now.count) }
    ensures few { IfOk result (λ read. length read.nodes.items < 2 ^ 32) }
{
    let count = map.count();
    let buckets = map.buckets();
    let Packages {
        mut nodes,
        mut links,
    } = room;
    let mut at = map.first_node();
    for _ in 0..count {
        match map.node_at(at, steps) {
            Ok(node) => {
                links.push(NodeLink {
                    at,
                    owner: None,
                    name: node.name,
                    bucket: bucket(node.name.as_bytes(), buckets),
                    next: node.next,
                })?;
                nodes.push(node)?;
                at = node.end;
            }
            Err(_) => return Err(ImageFault::Node(FileType::PackageMap, at)),
        }
    }
    if at != size {
        return Err(ImageFault::Node(FileType::PackageMap, at));
    }
    Ok(Packages { nodes, links })
}

/// Reads the nodes of `flag.map`, up to the first place where one is refused or bytes stand behind the last one.
pub(crate) fn read_flags<'a, L: Ledger>(
    room: Flags<'a>,
    map: &FlagMap<'a>,
    size: u32,
    steps: &mut Steps<L>,
) -> Result<Flags<'a>, ImageFault>
    requires room { AreUnusedFlags room }
    requires size { size ≡ length map.now.file }
    ensures nodes { Tells (λ read. mapped flag_of read.nodes.items) result (nodes_of flag_map size
        (nodes_in flag_at map.now)) }
    ensures links { IfOk result (λ read. links_of read.links.items ≡ flag_links map.now.first_node
        (mapped flag_of read.nodes.items)) }
    ensures buckets { IfOk result (λ read. HaveBuckets (bucket_count map.now) read.links.items) }
    ensures count { IfOk result (λ read. length read.nodes.items ≡ map.now.count) }
    ensures few { IfOk result (λ read. length read.nodes.items < 2 ^ 32) }
{
    let count = map.count();
    let buckets = map.buckets();
    let Flags {
        mut nodes,
        mut links,
    } = room;
    let mut at = map.first_node();
    for _ in 0..count {
        match map.node_at(at, steps) {
            Ok(node) => {
                links.push(NodeLink {
                    at,
                    owner: Some(node.package_id),
                    name: node.name,
                    bucket: flag_bucket(node.package_id, node.name.as_bytes(), buckets),
                    next: node.next,
                })?;
                nodes.push(node)?;
                at = node.end;
            }
            Err(_) => return Err(ImageFault::Node(FileType::FlagMap, at)),
        }
    }
    if at != size {
        return Err(ImageFault::Node(FileType::FlagMap, at));
    }
    Ok(Flags { nodes, links })
}
