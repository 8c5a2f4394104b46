//! Flags put in the order of their names before they are sorted: a sort of large values that are in order moves none.

ghost use Rattle.std.specs.Prelude.{◌≡◌, ◌<◌, IsPermutation, OnOk, length};

use crate::flags::Flag;
use std::alloc::{AllocError, Global};

/// Puts flags in the order of their names.
pub fn arrange(alloc: Global, flags: &mut Vec<Flag>) -> Result<(), AllocError>
    ensures { OnOk result (IsPermutation flags.old.items flags.new.items) }
{
    let mut ranks = rank(alloc, flags.as_slice())?;
    permute(flags.as_mut_slice(), ranks.as_mut_slice());
    Ok(())
}

// The rank of each flag by its name. Rows hold the first bytes of a name: most comparisons look at nothing else.
fn rank(alloc: Global, flags: &[Flag]) -> Result<Vec<usize>, AllocError>
    ensures { OnOk result (length flags.now ≡ length flags.now) }
{
    let mut rows = Vec::with_capacity(alloc, flags.len())?;
    for (place, flag) in flags.iter().enumerate() {
        let name = flag.name.as_str();
        let (front, next) = front_of(name.as_bytes());
        rows.push((front, next, name, place))?;
    }
    rows.sort_unstable();
    let mut ranks = vec![in alloc; 0; flags.len()]?;
    for (rank, row) in rows.iter().enumerate() {
        let place = row.3;
        if place < ranks.len() {
            ranks[place] = rank;
        }
    }
    Ok(ranks)
}

// The first sixteen bytes of a name as two numbers, which compare as they do.
fn front_of(name: &[u8]) -> (u64, u64)
    ensures { length name.now ≡ length name.now }
{
    let mut front = 0_u64;
    let mut next = 0_u64;
    for at in 0..8 {
        front = front.wrapping_mul(256).wrapping_add(byte_at(name, at));
        next = next.wrapping_mul(256).wrapping_add(byte_at(name, at + 8));
    }
    (front, next)
}

fn byte_at(name: &[u8], at: usize) -> u64
    ensures { result < 256 }
{
    if at < name.len() {
        u64::from(name[at])
    } else {
        0
    }
}

// Moves each flag to its rank: each turn finds one there, or puts one there.
#[tactic(auto, using(crate::proofs::Moved::moved_on))]
fn permute(flags: &mut [Flag], ranks: &mut [usize])
    ensures { IsPermutation flags.old flags.new }
{
    let count = flags.len().min(ranks.len());
    let mut at = 0;
    for _ in 0..count.saturating_mul(2) {
        if at >= count {
            break;
        }
        let rank = ranks[at];
        if rank == at || rank >= count {
            at += 1;
        } else {
            exchange(flags, ranks, at, rank);
        }
    }
}

// Puts two flags, and their ranks, in each other's place.
fn exchange(flags: &mut [Flag], ranks: &mut [usize], at: usize, other: usize)
    requires flags { (at < length flags.old) × (other < length flags.old) }
    requires ranks { (at < length ranks.old) × (other < length ranks.old) }
    ensures moved { IsPermutation flags.old flags.new }
    ensures flags { length flags.new ≡ length flags.old }
    ensures ranks { length ranks.new ≡ length ranks.old }
{
    flags.swap(at, other);
    ranks.swap(at, other);
}
