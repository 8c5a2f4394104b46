//! The digest by which a set is known.

ghost use Rattle.std.specs.Prelude.{◌≡◌};
ghost use Rattle.sha2.specs.Sha256.{sha256};
ghost use Rattle.acfg_images.specs.Files.{joined};

use crate::set::ImageSet;
use sha2::{Digest, Sha256};

/// The SHA-256 digest (FIPS 180-4) of the four files joined: `package.map`, `flag.map`, `flag.val`, `flag.info`.
pub fn digest(set: &ImageSet) -> [u8; 32]
    ensures { result ≡ sha256 (joined set.now) }
{
    let mut hasher = Sha256::new();
    hasher.update(set.package_map());
    hasher.update(set.flag_map());
    hasher.update(set.flag_val());
    hasher.update(set.flag_info());
    hasher.finalize()
}
