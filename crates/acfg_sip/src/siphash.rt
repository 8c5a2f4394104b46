//! SipHash-C-D of bytes that lie together.

ghost use Rattle.std.specs.Prelude.{◌≡◌};
ghost use Rattle.acfg_sip.specs.SipHash.{siphash};

use crate::hasher::Hasher;

/// SipHash-C-D: the keyed hash of `bytes` with `C` rounds for each word of the message and `D`
/// rounds at the end. `key0` and `key1` are the two halves of the key, each read little endian.
///
/// The function is that of Aumasson and Bernstein, "SipHash: a fast short-input PRF" (2012),
/// section 2.
pub fn sip<const C: usize, const D: usize>(key0: u64, key1: u64, bytes: &[u8]) -> u64
    ensures { result ≡ siphash C D key0 key1 bytes.now }
{
    let mut hasher = Hasher::<C, D>::new(key0, key1);
    hasher.write(bytes);
    hasher.finish()
}
