//! `records`: the list of the containers.

ghost use Rattle.std.specs.Prelude.{◌≡◌, ◌^◌, ◌<◌, ◌≤◌, ◌++◌, IfOk, List, ℕ, MatchOption, codes, length, option_map};
ghost use Rattle.acfg_base.specs.Found.{Finds};
ghost use Rattle.acfg_model.specs.State.{IsDigest, most_containers};
ghost use Rattle.acfg_store.specs.Records.{SpellsRecords, recorded_tail, records_bytes, records_header};
ghost use Rattle.acfg_store.specs.Taken.{Takes};

use crate::fields::{
    put_bytes, put_string, put_u8, put_u32, slot_byte, take_digest, take_name, take_slot, take_u32,
};
use crate::names::Slot;
use crate::rows::{Spelled, put_rows, read_rows};
use acfg_base::{ContainerName, InOrder, OutOfMemory, Row};
use std::alloc::Global;

/// A container as `records` lists it.
#[derive(Debug, Drop)]
pub struct Recorded {
    pub name: ContainerName,
    /// The slot of the release's files.
    pub release: Slot,
    /// The slot of the overrides.
    pub overrides: Slot,
    /// The SHA-256 digest of the release's four files joined.
    pub digest: [u8; 32],
}

impl Row for Recorded {
    ghost use Rattle.std.specs.Prelude.{List, ℕ};
    ghost use Rattle.acfg_model.specs.State.{name_cmp};
    ghost use Rattle.acfg_store.specs.Keys.{recorded_name};

    ghost Key = { List ℕ };

    ghost key = { recorded_name };

    ghost cmp = { name_cmp };
}

impl Spelled for Recorded {
    ghost use Rattle.acfg_store.specs.Records.{recorded_bytes, IsRecorded};

    ghost spelled = { recorded_bytes };

    ghost IsLawful = { IsRecorded };

    fn take(alloc: Global, bytes: &[u8]) -> Result<Option<(Recorded, &[u8])>, OutOfMemory> {
        match take_name(alloc, bytes)? {
            None => Ok(None),
            Some((name, rest)) => Ok(take_recorded(name, rest)),
        }
    }

    fn put(&self, out: &mut Vec<u8>) -> Result<(), OutOfMemory> {
        put_string(out, self.name.as_str().as_bytes())?;
        put_u8(out, slot_byte(self.release))?;
        put_u8(out, slot_byte(self.overrides))?;
        put_bytes(out, self.digest.as_slice())?;
        Ok(())
    }

    fn is_before(&self, later: &Recorded) -> bool {
        self.name.as_str().cmp(&later.name.as_str()).is_lt()
    }

    fn laws() {}
}

/// The containers of a device directory, in order of the bytes of their names.
pub type Records = InOrder<Recorded>;

const MARK: [u8; 4] = *b"ACRF";

const VERSION: u32 = 1;

const MOST_CONTAINERS: u32 = 256;

/// The containers that bytes list; none exactly where the bytes are no lawful list.
///
/// # Errors
///
/// An allocation was refused.
pub fn read_records(alloc: Global, bytes: &[u8]) -> Result<Option<Records>, OutOfMemory>
    ensures { IfOk result (Finds (SpellsRecords bytes.now)) }
{
    match header_of(bytes) {
        None => Ok(None),
        Some((count, rest)) => {
            if count > MOST_CONTAINERS {
                return Ok(None);
            }
            let rows = read_rows(alloc, count, rest)?;
            Ok(rows)
        }
    }
}

/// The bytes of `records` for at most 256 containers.
///
/// # Errors
///
/// An allocation was refused.
pub fn write_records(alloc: Global, rows: &[Recorded]) -> Result<Vec<u8>, OutOfMemory>
    requires { length rows.now ≤ most_containers }
    ensures { IfOk result (λ bytes. bytes.items ≡ records_bytes rows.now) }
{
    let mut bytes = Vec::new(alloc);
    put_bytes(&mut bytes, MARK.as_slice())?;
    put_u32(&mut bytes, VERSION)?;
    put_u32(&mut bytes, rows.len() as u32)?;
    put_rows(&mut bytes, rows)?;
    Ok(bytes)
}

// How many containers are listed, by the header, and what is behind it.
fn header_of(bytes: &[u8]) -> Option<(u32, &[u8])>
    ensures { Takes records_header (λ count. count < 2 ^ 32) bytes.now (option_map (λ t. (t.0, t.1.now)) result) }
{
    match behind_mark(bytes) {
        None => None,
        Some(rest) => match take_u32(rest) {
            None => None,
            Some((version, rest)) => {
                if version == VERSION {
                    take_u32(rest)
                } else {
                    None
                }
            }
        },
    }
}

fn behind_mark(bytes: &[u8]) -> Option<&[u8]>
    ensures { MatchOption result ((rest : List ℕ) → bytes.now ≡ codes "ACRF" ++ rest → ⊥)
        (λ rest. bytes.now ≡ codes "ACRF" ++ rest.now) }
{
    if bytes.len() < 4 {
        return None;
    }
    let (front, rest) = bytes.split_at(4);
    if front == MARK.as_slice() {
        Some(rest)
    } else {
        None
    }
}

// A container whose name was read.
fn take_recorded(name: ContainerName, bytes: &[u8]) -> Option<(Recorded, &[u8])>
    ensures { Takes recorded_tail (λ row. (row.name ≡ name) × IsDigest row.digest) bytes.now
        (option_map (λ t. (t.0, t.1.now)) result) }
{
    match take_slot(bytes) {
        None => None,
        Some((release, rest)) => match take_slot(rest) {
            None => None,
            Some((overrides, rest)) => match take_digest(rest) {
                None => None,
                Some(taken) => {
                    let digest = taken.0;
                    let rest = taken.1;
                    let row = Recorded {
                        name,
                        release,
                        overrides,
                        digest,
                    };
                    Some((row, rest))
                }
            },
        },
    }
}
