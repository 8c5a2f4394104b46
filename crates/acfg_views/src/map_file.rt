//! What `package.map` and `flag.map` share: the header, and the buckets behind it.

ghost use Rattle.std.specs.Prelude.{◌≡◌, ◌+◌, ◌≤◌, IfOk, Ok, Err, length, drop, nat_lt, if◌then◌else◌};
ghost use Rattle.acfg_views.specs.Fields.{IsBytes, number_of};
ghost use Rattle.acfg_views.specs.declared.fault.ViewFault.TheVariants.{BadOffsets};
ghost use Rattle.acfg_views.specs.Reading.{Answers, opened_map, are_map_offsets as offsets_fit};
ghost use Rattle.acfg_views.specs.Views.{open_map_of};

use crate::fault::ViewFault;
use crate::fields::{container_of, file_type_of, size_of, u32_of, version_of};
use byteorder::{ByteOrder, LittleEndian};

/// A map file whose header was read.
#[derive(Debug, Drop)]
pub(crate) struct MapFile<'a> {
    pub(crate) bytes: &'a [u8],
    pub(crate) version: u32,
    pub(crate) container: &'a str,
    pub(crate) count: u32,
    pub(crate) first_bucket: u32,
    pub(crate) first_node: u32,
}

/// Opens a file of this type.
pub(crate) fn open_map(file_type: u8, bytes: &[u8]) -> Result<MapFile<'_>, ViewFault>
    ensures opened { Answers open_map_of result (opened_map file_type bytes.now) }
    ensures bytes { IfOk result (λ map. IsBytes map.bytes.now) }
{
    read_map(file_type, bytes)
}

#[tactic(auto, unfolding(crate::specs::Reading::opened_map))]
fn read_map(file_type: u8, bytes: &[u8]) -> Result<MapFile<'_>, ViewFault>
    ensures { Answers open_map_of result (opened_map file_type bytes.now) }
{
    let (version, rest) = version_of(bytes)?;
    let (container, rest) = container_of(rest)?;
    let (_, rest) = file_type_of(file_type, rest)?;
    let (_, rest) = size_of(bytes.len(), rest)?;
    let (count, rest) = u32_of(rest)?;
    let (first_bucket, rest) = u32_of(rest)?;
    let (first_node, rest) = u32_of(rest)?;
    let header = bytes.len().saturating_sub(rest.len());
    if !are_map_offsets(
        header,
        bytes.len(),
        first_bucket as usize,
        first_node as usize,
    ) {
        return Err(ViewFault::BadOffsets);
    }
    Ok(MapFile {
        bytes,
        version,
        container,
        count,
        first_bucket,
        first_node,
    })
}

fn are_map_offsets(header: usize, size: usize, first_bucket: usize, first_node: usize) -> bool
    ensures { result ≡ offsets_fit header size first_bucket first_node }
{
    first_bucket == header
        && header < first_node
        && (first_node - header) % 4 == 0
        && first_node <= size
}

/// The bytes from an offset on, where nodes may stand there.
pub(crate) fn node_place(bytes: &[u8], first_node: u32, off: u32) -> Result<&[u8], ViewFault>
    ensures { Answers (λ rest. rest.now) result (if nat_lt off first_node then Err BadOffsets else Ok
        (drop off bytes.now)) }
{
    if off < first_node {
        return Err(ViewFault::BadOffsets);
    }
    let off = (off as usize).min(bytes.len());
    Ok(&bytes[off..])
}

/// The number in the four bytes at a place.
#[tactic(auto, unfolding(crate::specs::Fields::number_of))]
pub(crate) fn u32_in_place(bytes: &[u8], place: usize) -> u32
    requires { place + 4 ≤ length bytes.now }
    ensures { result ≡ number_of 4 (drop place bytes.now) }
{
    LittleEndian::read_u32(&bytes[place..])
}
