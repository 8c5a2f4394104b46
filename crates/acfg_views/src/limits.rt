//! What the four files are held to together, and the bytes of `flag.info` that they are written with.

ghost use Rattle.std.specs.Prelude.{◌≡◌, nat_lt};
ghost use Rattle.acfg_views.specs.Layout.{MOST_BYTES as most_bytes, new_info as info_of};

use acfg_base::Kind;

// The most bytes that the four files have together.
const MOST_BYTES: u64 = 4_194_304;

/// Whether so many bytes are too many for the four files together.
pub fn are_too_large(size: u64) -> bool
    ensures { result ≡ nat_lt most_bytes size }
{
    size > MOST_BYTES
}

/// The byte of `flag.info` of a flag whose file is new: 2 where it is read-write, else 0.
pub fn new_info(kind: Kind) -> u8
    ensures { result ≡ info_of kind }
{
    match kind {
        Kind::ReadWrite => 2,
        Kind::ReadOnly | Kind::Fixed => 0,
    }
}
