//! The bytes of `flag.val` and `flag.info`.

ghost use Rattle.std.specs.Prelude.{◌≡◌, not, nat_lt};
ghost use Rattle.acfg_views.specs.Reading.{byte_in};
ghost use Rattle.acfg_images.specs.Words.{least};
ghost use Rattle.acfg_images.specs.Faults.{is_info};

use crate::purpose::Use;
use acfg_views::{Infos, Values};

/// The first index whose value is neither 0 nor 1.
pub(crate) fn first_bad_value(values: &Values<'_>) -> Option<u32>
    ensures { result ≡ least (λ i. nat_lt 1 (byte_in values.now i)) 0 values.now.count }
{
    for i in 0..values.count() {
        if values.at(i) > 1 {
            return Some(i);
        }
    }
    None
}

/// The first index whose bits aren't lawful for this use.
pub(crate) fn first_bad_info(infos: &Infos<'_>, purpose: Use) -> Option<u32>
    ensures { result ≡ least (λ i. not (is_info purpose (byte_in infos.now i))) 0 infos.now.count }
{
    for i in 0..infos.count() {
        if !is_lawful(purpose, infos.at(i)) {
            return Some(i);
        }
    }
    None
}

fn is_lawful(purpose: Use, byte: u8) -> bool
    ensures { result ≡ is_info purpose byte }
{
    match purpose {
        Use::Release => byte == 0 || byte == 2,
        Use::Copy => byte == 0 || byte == 2 || byte == 3 || byte == 6 || byte == 7,
    }
}
