//! What `flag.val` and `flag.info` share: the header, and one byte a flag behind it.

ghost use Rattle.std.specs.Prelude.{◌≡◌, IfOk};
ghost use Rattle.acfg_views.specs.Fields.{IsBytes};
ghost use Rattle.acfg_views.specs.Reading.{Answers, opened_list};
ghost use Rattle.acfg_views.specs.Views.{open_list_of};

use crate::fault::ViewFault;
use crate::fields::{container_of, file_type_of, size_of, u32_of, version_of};

/// A file of one byte a flag, whose header was read.
#[derive(Debug, Drop)]
pub(crate) struct ListFile<'a> {
    pub(crate) bytes: &'a [u8],
    pub(crate) version: u32,
    pub(crate) container: &'a str,
    pub(crate) count: u32,
    pub(crate) first_byte: u32,
}

/// Opens a file of this type.
pub(crate) fn open_list(file_type: u8, bytes: &[u8]) -> Result<ListFile<'_>, ViewFault>
    ensures opened { Answers open_list_of result (opened_list file_type bytes.now) }
    ensures bytes { IfOk result (λ list. IsBytes list.bytes.now) }
{
    read_list(file_type, bytes)
}

#[tactic(auto, unfolding(crate::specs::Reading::opened_list))]
fn read_list(file_type: u8, bytes: &[u8]) -> Result<ListFile<'_>, ViewFault>
    ensures { Answers open_list_of result (opened_list file_type bytes.now) }
{
    let (version, rest) = version_of(bytes)?;
    let (container, rest) = container_of(rest)?;
    let (_, rest) = file_type_of(file_type, rest)?;
    let (_, rest) = size_of(bytes.len(), rest)?;
    let (count, rest) = u32_of(rest)?;
    let (first_byte, rest) = u32_of(rest)?;
    let header = bytes.len().saturating_sub(rest.len());
    if first_byte as usize != header || header as u64 + u64::from(count) != bytes.len() as u64 {
        return Err(ViewFault::BadOffsets);
    }
    Ok(ListFile {
        bytes,
        version,
        container,
        count,
        first_byte,
    })
}
