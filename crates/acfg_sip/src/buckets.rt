//! Which bucket of a map file a key is in, and how many buckets a map file is written with.

ghost use Rattle.std.specs.Prelude.{◌≡◌, ◌<◌, ◌≤◌, ◌*◌, ◌↔◌, ℕ, List, IsNone, IfSome, find, nat_le};
ghost use Rattle.std.specs.Prelude.{length, slice_index, slice_set};
ghost use Rattle.acfg_sip.specs.Buckets.{bucket_counts, flag_key, hash, size};
ghost use Rattle.acfg_sip.specs.Hasher.{Holds};
ghost use Rattle.acfg_sip.specs.SipHash.{initialized};

use crate::hasher::Hasher;
use itoa::Buffer;

// Buckets are found by SipHash-1-3, with zero keys.
type KeyHasher = Hasher<1, 3>;

// The byte that ends a key.
const KEY_END: u8 = 0xff;

const BUCKET_COUNTS: [u32; 17] = [
    7, 17, 29, 53, 97, 193, 389, 769, 1543, 3079, 6151, 12289, 24593, 49157, 98317, 196613, 393241,
];

/// The bucket of `key` among `n`, from 0: SipHash-1-3 with zero keys over the key and one byte
/// 0xff, modulo `n`. A package's key is its name.
pub fn bucket(key: &[u8], n: u32) -> u32
    requires { 0 < n }
    ensures value { result ≡ hash key.now n }
    ensures below { result < n }
{
    let mut hasher = KeyHasher::new(0, 0);
    hasher.write(key);
    bucket_of(hasher, n)
}

/// The bucket among `n` of a flag: that of the key which is its package's id in decimal, `/` and
/// its name.
pub fn flag_bucket(package_id: u32, flag: &[u8], n: u32) -> u32
    requires { 0 < n }
    ensures value { result ≡ hash (flag_key package_id flag.now) n }
    ensures below { result < n }
{
    let mut digits = Buffer::new();
    let mut hasher = KeyHasher::new(0, 0);
    hasher.write(digits.format(package_id).as_bytes());
    hasher.push(b'/');
    hasher.write(flag);
    bucket_of(hasher, n)
}

// The bucket among `n` of the key that the hasher has taken in.
fn bucket_of(mut hasher: KeyHasher, n: u32) -> u32
    requires { 0 < n }
    ensures value { (key : List ℕ) → Holds (initialized 0 0) hasher key → result ≡ hash key n }
    ensures below { result < n }
{
    hasher.push(KEY_END);
    (hasher.finish() % u64::from(n)) as u32
}

/// The number of buckets for so many entries: the first count of the table that is at least twice
/// as many, and `None` over 196,620 entries.
pub fn table_size(entries: u32) -> Option<u32>
    ensures value { result ≡ size entries }
    ensures none { IsNone result ↔ (196620 < entries) }
    ensures room { IfSome result (λ count. 2 * entries ≤ count) }
    ensures bounds { IfSome result (λ count. (7 ≤ count) × (count ≤ 393241)) }
{
    first_count(2 * u64::from(entries))
}

// The first count of the table that is at least `wanted`.
fn first_count(wanted: u64) -> Option<u32>
    ensures { result ≡ find (λ count. nat_le wanted count) bucket_counts }
{
    BUCKET_COUNTS
        .iter()
        .copied()
        .find(|count| wanted <= u64::from(*count))
}

/// What the node at a place links to, given the first node of each bucket so far: the first one of its bucket, or 0
/// where there is none. The bucket's first node is the one at the place from now on.
pub fn lead(firsts: &mut [u32], bucket: u32, at: u32) -> u32
    requires { bucket < length firsts.old }
    ensures next { result ≡ slice_index firsts.old bucket }
    ensures first { firsts.new ≡ slice_set firsts.old bucket at }
{
    let next = firsts[bucket as usize];
    firsts[bucket as usize] = at;
    next
}
