//! A file's bytes, and which of them are not synced.

ghost use Rattle.std.specs.Prelude.{◌≡◌, ◌+◌, ◌≤◌, IfOk, OnOk, OnErr, length};
ghost use Rattle.acfg_device.specs.Calls.{loosened, overwritten, synced};
ghost use Rattle.acfg_memdev.specs.Held.{loose_of, file_of};

use acfg_device::OutOfMemory;
use std::alloc::Global;

/// What of the bytes is not synced: ranges of a place and a length, or all of them.
#[derive(Drop)]
pub enum Loose {
    Within(Vec<(usize, usize)>),
    Replaced,
}

/// The bytes of a file, and what of them is not synced.
#[derive(Drop)]
pub struct File {
    pub bytes: Vec<u8>,
    pub loose: Loose,
}

fn loosen(loose: &mut Loose, at: usize, len: usize) -> Result<(), OutOfMemory>
    ensures ok { OnOk result (loose_of loose.new ≡ loosened (loose_of loose.old) at len) }
    ensures err { OnErr result (loose_of loose.new ≡ loose_of loose.old) }
{
    match loose {
        Loose::Within(ranges) => Ok(ranges.push((at, len))?),
        Loose::Replaced => Ok(()),
    }
}

/// Puts bytes in the place of as many, which are then not synced.
pub fn overwrite(file: &mut File, at: usize, bytes: &[u8]) -> Result<(), OutOfMemory>
    requires { at + length bytes.now ≤ length file.old.bytes.items }
    ensures ok { OnOk result (file_of file.new ≡ overwritten at bytes.now (file_of file.old)) }
    ensures err { OnErr result (file_of file.new ≡ file_of file.old) }
{
    loosen(&mut file.loose, at, bytes.len())?;
    let end = at + bytes.len();
    let held = file.bytes.as_mut_slice();
    held[at..end].copy_from_slice(bytes);
    Ok(())
}

/// The file with all its bytes synced.
pub fn settle(alloc: Global, file: File) -> File
    ensures { file_of result ≡ synced (file_of file) }
{
    let File {
        bytes,
        loose: _loose,
    } = file;
    File {
        bytes,
        loose: Loose::Within(Vec::new(alloc)),
    }
}
