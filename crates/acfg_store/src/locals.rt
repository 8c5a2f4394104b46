//! `local`: the local overrides of a container.

ghost use Rattle.std.specs.Prelude.{◌≡◌, ◌^◌, ◌<◌, IfOk, length};
ghost use Rattle.acfg_base.specs.Found.{Finds};
ghost use Rattle.acfg_store.specs.Records.{SpellsLocals, locals_bytes};

use crate::fields::{bit_byte, put_u8, put_u32, take_bit, take_u32};
use crate::rows::{Spelled, put_rows, read_rows};
use acfg_base::{InOrder, OutOfMemory, Row};
use std::alloc::Global;

/// A local override as `local` lists it.
#[derive(Clone, Copy, Debug, PartialEq, Eq)]
pub struct LocalOverride {
    /// The flag's global index in the release.
    pub index: u32,
    pub value: bool,
}

impl Row for LocalOverride {
    ghost use Rattle.std.specs.Prelude.{ℕ};
    ghost use Rattle.std.specs.Ordering.{nat_cmp};
    ghost use Rattle.acfg_store.specs.Keys.{local_index};

    ghost Key = { ℕ };

    ghost key = { local_index };

    ghost cmp = { nat_cmp };
}

impl Spelled for LocalOverride {
    ghost use Rattle.acfg_store.specs.Records.{local_bytes, IsLocal};

    ghost spelled = { local_bytes };

    ghost IsLawful = { IsLocal };

    fn take(_alloc: Global, bytes: &[u8]) -> Result<Option<(LocalOverride, &[u8])>, OutOfMemory> {
        match take_u32(bytes) {
            None => Ok(None),
            Some((index, rest)) => match take_bit(rest) {
                None => Ok(None),
                Some((value, rest)) => Ok(Some((LocalOverride { index, value }, rest))),
            },
        }
    }

    fn put(&self, out: &mut Vec<u8>) -> Result<(), OutOfMemory> {
        put_u32(out, self.index)?;
        put_u8(out, bit_byte(self.value))?;
        Ok(())
    }

    fn is_before(&self, later: &LocalOverride) -> bool {
        self.index < later.index
    }

    fn laws() {}
}

/// The local overrides of a container, in order of their indexes.
pub type Locals = InOrder<LocalOverride>;

/// The local overrides that bytes list; none exactly where the bytes are no lawful list.
///
/// # Errors
///
/// An allocation was refused.
pub fn read_locals(alloc: Global, bytes: &[u8]) -> Result<Option<Locals>, OutOfMemory>
    ensures { IfOk result (Finds (SpellsLocals bytes.now)) }
{
    match take_u32(bytes) {
        None => Ok(None),
        Some((count, rest)) => {
            let rows = read_rows(alloc, count, rest)?;
            Ok(rows)
        }
    }
}

/// The bytes of `local`.
///
/// # Errors
///
/// An allocation was refused.
pub fn write_locals(alloc: Global, rows: &[LocalOverride]) -> Result<Vec<u8>, OutOfMemory>
    requires { length rows.now < 2 ^ 32 }
    ensures { IfOk result (λ bytes. bytes.items ≡ locals_bytes rows.now) }
{
    let mut bytes = Vec::new(alloc);
    put_u32(&mut bytes, rows.len() as u32)?;
    put_rows(&mut bytes, rows)?;
    Ok(bytes)
}
