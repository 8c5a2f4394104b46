//! The memory of a check, taken at its start: lists and tables with room for all that the check keeps.

ghost use Rattle.std.specs.Prelude.{◌≡◌, [], IfOk, EachIndex, length, slice_index, slice_index_or, false};
ghost use Rattle.acfg_images.specs.Room.{IsUnused, AreUnusedPackages, AreUnusedFlags, AreUnusedTables};
ghost use Rattle.acfg_images.specs.Room.{AreUnusedNumbers};

use crate::links::NodeLink;
use crate::nodes::{Flags, Packages};
use crate::set::ImageSet;
use crate::twins::Row;
use crate::views::Views;
use std::alloc::{AllocError, Global};

/// The least bytes of a node: four numbers, and a name of one byte behind its length.
const LEAST_NODE: usize = 17;

/// What a check keeps. The lists and tables are empty at first, and no more is put into them than there is room for.
#[derive(Drop)]
pub(crate) struct Room<'a> {
    pub(crate) packages: Packages<'a>,
    pub(crate) package_tables: LinkTables<'a>,
    pub(crate) flags: Flags<'a>,
    pub(crate) flag_tables: LinkTables<'a>,
    pub(crate) numbers: NumberTables,
}

/// What is found of the links of a map.
#[derive(Drop)]
pub(crate) struct LinkTables<'a> {
    pub(crate) rows: Vec<Row<'a>>,
    pub(crate) buckets: Vec<u32>,
    pub(crate) firsts: Vec<u32>,
}

/// What is found of ids and global indexes.
#[derive(Drop)]
pub(crate) struct NumberTables {
    pub(crate) ids: Vec<bool>,
    pub(crate) by_index: IndexTables,
}

/// What is found of global indexes.
#[derive(Drop)]
pub(crate) struct IndexTables {
    pub(crate) starts: Vec<u32>,
    pub(crate) indexes: Vec<u64>,
    pub(crate) counts: Vec<u32>,
    pub(crate) kinds: Vec<bool>,
}

/// Room for a set whose files are open.
pub(crate) fn take_room<'a>(
    alloc: Global,
    set: &ImageSet,
    views: &Views<'_>,
) -> Result<Room<'a>, AllocError>
    ensures { IfOk result IsUnused }
{
    let packages = most_nodes(views.package_map.count(), set.package_map());
    let flags = most_nodes(views.flag_map.count(), set.flag_map());
    Ok(Room {
        packages: Packages {
            nodes: Vec::with_capacity(alloc, packages)?,
            links: Vec::with_capacity(alloc, packages)?,
        },
        package_tables: take_link_tables(alloc, packages, views.package_map.buckets() as usize)?,
        flags: Flags {
            nodes: Vec::with_capacity(alloc, flags)?,
            links: Vec::with_capacity(alloc, flags)?,
        },
        flag_tables: take_link_tables(alloc, flags, views.flag_map.buckets() as usize)?,
        numbers: take_number_tables(alloc, packages, flags, views.infos.count() as usize)?,
    })
}

// How many nodes a file can have: as many as its header says, and none without its bytes.
fn most_nodes(count: u32, file: &[u8]) -> usize {
    (count as usize).min(file.len() / LEAST_NODE)
}

fn take_link_tables<'a>(
    alloc: Global,
    nodes: usize,
    buckets: usize,
) -> Result<LinkTables<'a>, AllocError>
    ensures { IfOk result AreUnusedTables }
{
    Ok(LinkTables {
        rows: Vec::with_capacity(alloc, nodes)?,
        buckets: Vec::with_capacity(alloc, buckets)?,
        firsts: Vec::with_capacity(alloc, buckets)?,
    })
}

fn take_number_tables(
    alloc: Global,
    packages: usize,
    flags: usize,
    infos: usize,
) -> Result<NumberTables, AllocError>
    ensures { IfOk result AreUnusedNumbers }
{
    Ok(NumberTables {
        ids: Vec::with_capacity(alloc, packages)?,
        by_index: IndexTables {
            starts: Vec::with_capacity(alloc, packages)?,
            indexes: Vec::with_capacity(alloc, flags)?,
            counts: Vec::with_capacity(alloc, flags)?,
            kinds: Vec::with_capacity(alloc, infos)?,
        },
    })
}

/// A table of so many zeros.
pub(crate) fn zeros(mut table: Vec<u32>, size: usize) -> Result<Vec<u32>, AllocError>
    requires { table.items ≡ [] }
    ensures size { IfOk result (λ made. length made.items ≡ size) }
    ensures zeros { IfOk result (λ made. EachIndex made.items (λ k. slice_index made.items k ≡ 0)) }
{
    table.resize(size, 0)?;
    Ok(table)
}

/// A table of so many marks.
pub(crate) fn marks(mut table: Vec<bool>, size: usize, mark: bool) -> Result<Vec<bool>, AllocError>
    requires { table.items ≡ [] }
    ensures size { IfOk result (λ made. length made.items ≡ size) }
    ensures marks { IfOk result (λ made. EachIndex made.items (λ k. slice_index_or made.items k false ≡ mark)) }
{
    table.resize(size, mark)?;
    Ok(table)
}
