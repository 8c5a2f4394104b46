//! What a power cut leaves: a device of its own.

ghost use Rattle.std.specs.Prelude.{◌≡◌, List, ℕ, IfOk, OnOk, if◌then◌else◌, map};
ghost use Rattle.std.specs.Option.{option_map};
ghost use Rattle.acfg_device.specs.Account.{LeftSince};
ghost use Rattle.acfg_device.specs.Disk.{IsSettled, MayLeave, Moved, in_ranges, undone};
ghost use Rattle.acfg_memdev.specs.Cut.{IsCut, filled, filled_from, kept};
ghost use Rattle.acfg_memdev.specs.Held.{change_of, file_of};
ghost use Rattle.acfg_memdev.specs.History.{account_of, disk_after, files_of, given, said_of};
ghost use Rattle.acfg_memdev.specs.Kept.{entry_of};
ghost use Rattle.acfg_memdev.specs.Slots.{changes_of, names_of};

use crate::device::MemDevice;
use crate::disk::{Change, Disk};
use crate::file::{File, Loose};
use crate::slots::{Slots, make_slot, put};
use acfg_device::OutOfMemory;
use std::alloc::Global;

// Moves a file back to the name that it had, and gives the other name its own file back.
fn move_back(
    slots: &mut Slots,
    alloc: Global,
    from: &str,
    to: &str,
    lost: Option<File>,
) -> Result<(), OutOfMemory>
    ensures { OnOk result (names_of slots.new ≡ undone (Moved from.now to.now (option_map file_of lost))
        (names_of slots.old)) }
{
    make_slot(slots, alloc, from)?;
    make_slot(slots, alloc, to)?;
    let moved = put(slots, to, None);
    put(slots, from, moved);
    put(slots, to, lost);
    Ok(())
}

fn undo(slots: &mut Slots, alloc: Global, change: Change) -> Result<(), OutOfMemory>
    ensures { OnOk result (names_of slots.new ≡ undone (change_of change) (names_of slots.old)) }
{
    match change {
        Change::Made(name) => {
            make_slot(slots, alloc, name.as_str())?;
            put(slots, name.as_str(), None);
            Ok(())
        }
        Change::Moved(from, to, lost) => {
            move_back(slots, alloc, from.as_str(), to.as_str(), lost)
        }
        Change::Removed(name, file) => {
            make_slot(slots, alloc, name.as_str())?;
            put(slots, name.as_str(), Some(file));
            Ok(())
        }
    }
}

// Keeps the first so many of the name changes, and undoes the others, the newest first.
fn keep_names(
    slots: &mut Slots,
    alloc: Global,
    mut pending: Vec<Change>,
    count: u64,
) -> Result<(), OutOfMemory>
    ensures { OnOk result (names_of slots.new ≡ kept count (changes_of pending.items) (names_of slots.old)) }
{
    'newest: while pending.len() as u64 > count {
        match pending.pop() {
            Some(change) => undo(slots, alloc, change)?,
            None => return Ok(()),
        }
    }
    Ok(())
}

// The bytes with the fill in the ranges.
fn fill_ranges(
    alloc: Global,
    bytes: &[u8],
    ranges: &[(usize, usize)],
    fill: u8,
) -> Result<Vec<u8>, OutOfMemory>
    ensures { IfOk result (λ left. left.items ≡ filled_from ranges.now fill 0 bytes.now) }
{
    let mut left = Vec::with_capacity(alloc, bytes.len())?;
    for (place, byte) in bytes.iter().enumerate() {
        left.push(filled_byte(ranges, place, *byte, fill))?;
    }
    Ok(left)
}

fn filled_byte(ranges: &[(usize, usize)], place: usize, byte: u8, fill: u8) -> u8
    ensures { result ≡ (if in_ranges ranges.now place then fill else byte) }
{
    if is_in_ranges(ranges, place) {
        fill
    } else {
        byte
    }
}

fn is_in_ranges(ranges: &[(usize, usize)], place: usize) -> bool
    ensures { result ≡ in_ranges ranges.now place }
{
    ranges
        .iter()
        .any(|range| range.0 <= place && place - range.0 < range.1)
}

// The bytes of a file as they were written, or with the fill where they are not synced.
fn bytes_left(alloc: Global, file: &File, fill: Option<u8>) -> Result<Vec<u8>, OutOfMemory>
    ensures { IfOk result (λ left. left.items ≡ filled fill (file_of file.now)) }
{
    match fill {
        None => Ok(Vec::from_slice(alloc, file.bytes.as_slice())?),
        Some(fill) => match &file.loose {
            Loose::Within(ranges) => {
                fill_ranges(alloc, file.bytes.as_slice(), ranges.as_slice(), fill)
            }
            Loose::Replaced => Ok(vec![in alloc; fill; file.bytes.len()]?),
        },
    }
}

// The file that a name names, as the cut leaves it.
fn file_left(
    alloc: Global,
    slots: &Slots,
    name: &str,
    fill: Option<u8>,
) -> Result<Option<Vec<u8>>, OutOfMemory>
    ensures { IfOk result (λ left. option_map (λ bytes. bytes.items) left
        ≡ option_map (filled fill) (names_of slots.now name.now)) }
{
    match slots.get(name) {
        Some(Some(file)) => Ok(Some(bytes_left(alloc, file, fill)?)),
        Some(None) => Ok(None),
        None => Ok(None),
    }
}

// The files as the cut leaves them.
fn files_left(
    alloc: Global,
    slots: &Slots,
    fill: Option<u8>,
) -> Result<Vec<(String, Vec<u8>)>, OutOfMemory>
    ensures { IfOk result (λ left. (name : List ℕ) → given (map entry_of left.items) name
        ≡ option_map (filled fill) (names_of slots.now name)) }
{
    let mut left = Vec::new(alloc);
    for name in slots.keys() {
        match file_left(alloc, slots, name.as_str(), fill)? {
            Some(bytes) => left.push((String::from_str(alloc, name.as_str())?, bytes))?,
            None => {}
        }
    }
    Ok(left)
}

impl MemDevice {
    /// A settled device as a cut after the first `calls` calls may leave it, with all of them where there are
    /// fewer.
    ///
    /// The first `names` name changes that were pending are kept, or all of them where there are fewer. Each
    /// byte that was not synced is `fill`, or as it was written where `fill` is `None`; a file that was
    /// replaced keeps its length. The words are those said by then; no call was made, and none is to fail.
    pub fn cut(
        &self,
        alloc: Global,
        calls: u64,
        names: u64,
        fill: Option<u8>,
    ) -> Result<MemDevice, OutOfMemory>
        ensures exact { IfOk result (IsCut self.now calls names fill) }

        // The model allows it, at that moment and so at one since the start.
        ensures allowed { IfOk result (λ left. MayLeave (disk_after self.now calls) (files_of left) (said_of left)) }
        ensures since { IfOk result (λ left. LeftSince (account_of self.now) 0 (files_of left) (said_of left)) }
        ensures settled { IfOk result (λ left. IsSettled (account_of left).now) }
    {
        let Disk {
            mut slots,
            pending,
            said,
        } = self.disk_at(alloc, calls)?;
        keep_names(&mut slots, alloc, pending, names)?;
        let files = files_left(alloc, &slots, fill)?;
        MemDevice::from_entries(alloc, files, said, Vec::new(alloc))
    }
}
