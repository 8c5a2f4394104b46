//! Bytes from a reader and to a writer, whole.

ghost use Rattle.std.specs.Prelude.{◌≡◌, ◌++◌, ◌≤◌, ℕ, List, IfOk, IfSome, OnOk, OnErr, length};
ghost use Rattle.std.specs.Io.KnownBytes.{Appends};
ghost use Rattle.acfg_hostdev.specs.Host.{AppendsPart};

use crate::faults::HostFault;
use std::alloc::Global;
use std::io::{ErrorKind, Read, Write};

/// The most bytes that a file may have to be read.
pub const MAX_BYTES: usize = 1 << 30;

/// How many bytes one turn of a read asks for.
const CHUNK: usize = 1 << 14;

/// The reader's bytes to its end, with room for so many taken at once. A turn that a signal broke off is tried
/// again.
pub fn read_whole<R: Read>(alloc: Global, from: &mut R, room: usize) -> Result<Vec<u8>, HostFault>
    ensures whole { IfOk result (λ bytes. IfSome (R.remaining from.old) (λ all. bytes.items ≡ all)) }
    ensures most { IfOk result (λ bytes. length bytes.items ≤ MAX_BYTES) }
{
    let mut bytes = Vec::with_capacity(alloc, room)?;
    let mut chunk = [0; CHUNK];
    for _ in 0..u64::MAX {
        match from.read(&mut chunk) {
            Ok(0) => return Ok(bytes),
            Ok(count) => {
                if bytes.len().saturating_add(count) > MAX_BYTES {
                    return Err(HostFault::Failed);
                }
                bytes.extend_from_slice(&chunk[..count])?;
            }
            Err(error) => {
                if error.kind() != ErrorKind::Interrupted {
                    return Err(HostFault::Failed);
                }
            }
        }
    }
    Err(HostFault::Failed)
}

/// Writes all the bytes, or fails where the host takes none of them; then the first few may be written. A turn
/// that a signal broke off is tried again.
pub fn write_whole<W: Write>(to: &mut W, bytes: &[u8]) -> Result<(), HostFault>
    ensures ok { OnOk result (Appends (W.contents to.old) (W.contents to.new) bytes.now) }
    ensures err { OnErr result (AppendsPart (W.contents to.old) (W.contents to.new) bytes.now) }
{
    let mut done = 0;
    for _ in 0..u64::MAX {
        if done == bytes.len() {
            return Ok(());
        }
        match to.write(&bytes[done..]) {
            Ok(0) => return Err(HostFault::Failed),
            Ok(count) => done += count,
            Err(error) => {
                if error.kind() != ErrorKind::Interrupted {
                    return Err(HostFault::Failed);
                }
            }
        }
    }
    Err(HostFault::Failed)
}
