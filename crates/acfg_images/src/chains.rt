//! Buckets and links of a map.

ghost use Rattle.std.specs.Prelude.{◌≡◌, ◌^◌, ◌<◌, ◌+◌, ◌*◌, IfOk, EachIndex, length, slice_index, slice_set, ◌==◌};
ghost use Rattle.std.specs.Prelude.{not, IfSome, []};
ghost use Rattle.acfg_images.specs.Words.{least};
ghost use Rattle.acfg_images.specs.Links.{first_in};
ghost use Rattle.acfg_images.specs.Faults.{wrong_chain, wrong_next as next_fault};
ghost use Rattle.acfg_images.specs.Code.{HaveBuckets, links_of};

use crate::links::NodeLink;
use crate::room::zeros;
use std::alloc::AllocError;

/// The first bucket, at its own place, that doesn't hold where its first node stands, or else where the first node
/// stands whose next isn't that of the next node of its bucket.
pub(crate) fn first_wrong(
    firsts: Vec<u32>,
    first_bucket: u32,
    buckets: &[u32],
    links: &[NodeLink<'_>],
) -> Result<Option<u32>, AllocError>
    requires firsts { firsts.items ≡ [] }
    requires buckets { HaveBuckets (length buckets.now) links.now }
    requires some { 0 < length buckets.now }
    requires room { first_bucket + 4 * length buckets.now < 2 ^ 32 }
    ensures { IfOk result (λ at. at ≡ wrong_chain first_bucket buckets.now (links_of links.now)) }
{
    let mut firsts = zeros(firsts, buckets.len())?;
    Ok(wrong_in(&mut firsts, first_bucket, buckets, links))
}

// The same, with a table of zeros for the buckets.
fn wrong_in(
    firsts: &mut [u32],
    first_bucket: u32,
    buckets: &[u32],
    links: &[NodeLink<'_>],
) -> Option<u32>
    requires same { length firsts.old ≡ length buckets.now }
    requires none { EachIndex firsts.old (λ b. slice_index firsts.old b ≡ 0) }
    requires buckets { HaveBuckets (length buckets.now) links.now }
    requires some { 0 < length buckets.now }
    requires room { first_bucket + 4 * length buckets.now < 2 ^ 32 }
    ensures { result ≡ wrong_chain first_bucket buckets.now (links_of links.now) }
{
    let wrong = wrong_next(firsts, links);
    match first_different(buckets, firsts) {
        Some(b) => Some(first_bucket + 4 * b),
        None => wrong,
    }
}

// The first bucket that doesn't hold where its first node stands.
fn first_different(buckets: &[u32], firsts: &[u32]) -> Option<u32>
    requires same { length firsts.now ≡ length buckets.now }
    requires small { length buckets.now < 2 ^ 32 }
    ensures first { result ≡ least (λ b. not (slice_index buckets.now b == slice_index firsts.now b)) 0
        (length buckets.now) }
    ensures within { IfSome result (λ b. b < length buckets.now) }
{
    for b in 0..buckets.len() {
        if buckets[b] != firsts[b] {
            return Some(b as u32);
        }
    }
    None
}

// Goes from the last node to the first, and keeps for each bucket where its first node so far stands.
fn wrong_next(firsts: &mut [u32], links: &[NodeLink<'_>]) -> Option<u32>
    requires buckets { HaveBuckets (length firsts.old) links.now }
    requires some { 0 < length firsts.old }
    requires none { EachIndex firsts.old (λ b. slice_index firsts.old b ≡ 0) }
    ensures firsts { EachIndex firsts.new (λ b. slice_index firsts.new b ≡ first_in (length firsts.old) b
        (links_of links.now)) }
    ensures wrong { result ≡ next_fault (length firsts.old) (links_of links.now) }
{
    let mut wrong = None;
    let mut i = links.len();
    while i > 0 {
        i -= 1;
        let link = links[i];
        if !leads_on(firsts, link) {
            wrong = Some(link.at);
        }
    }
    wrong
}

// Whether the node's next is where its bucket's first node so far stands. The node is the first one from now on.
fn leads_on(firsts: &mut [u32], link: NodeLink<'_>) -> bool
    requires { link.bucket < length firsts.old }
    ensures right { result ≡ (link.entry.next == slice_index firsts.old link.entry.bucket) }
    ensures first { firsts.new ≡ slice_set firsts.old link.entry.bucket link.entry.at }
{
    let bucket = link.bucket as usize;
    let right = link.next == firsts[bucket];
    firsts[bucket] = link.at;
    right
}
