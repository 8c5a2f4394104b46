//! The look-up of flags in the bytes of a boot copy.

ghost use Rattle.std.specs.Prelude.{◌≡◌, IfOk, List, Ok, Some, ℕ};
ghost use Rattle.std.specs.Option.{option_map};
ghost use Rattle.acfg_images.specs.Faults.{parts_in};
ghost use Rattle.acfg_images.specs.Set.{listed};
ghost use Rattle.acfg_lookup.specs.Lookup.{flag_found};
ghost use Rattle.acfg_model.specs.State.{BootMap};
ghost use Rattle.acfg_model.specs.Step.{boot_value_in, value_reply};
ghost use Rattle.acfg_store.specs.Kept.{IsCopied};
ghost use Rattle.acfg_store.specs.Renewing.{IsCopyWith};

use crate::containers::Kept;
use crate::copying::check_again;
use acfg_base::OutOfMemory;
use acfg_images::{Checked, ImageSet, Use};
use acfg_lookup::{Found, find_flag};
use acfg_model::{FlagKey, Refusal, Reply};
use acfg_views::Steps;
use std::alloc::Global;
use std::marker::Brand;
use std::sync::ledger::{Blank, Ledger};

/// What a `get` of a flag replies, by the bytes that are kept of the container's boot copy.
///
/// # Errors
///
/// `OutOfMemory` where memory is refused.
pub(crate) fn reply_from(alloc: Global, one: &Kept, key: &FlagKey<'_>) -> Result<Reply, OutOfMemory>
    requires { IsCopied one.now }
    ensures { IfOk result (λ reply. reply ≡ value_reply (Some (boot_value_in one.now.container.boot key.now))) }
{
    match &one.boot {
        Some(copy) => {
            let value = copied_value(alloc, &copy.set, key)?;
            Ok(Reply::Value(value))
        }
        None => Ok(Reply::Refused(Refusal::NoBootCopy.number())),
    }
}

// A flag's value in the files of a boot copy, which are checked first; none where they list no such flag.
fn copied_value(
    alloc: Global,
    set: &ImageSet,
    key: &FlagKey<'_>,
) -> Result<Option<bool>, OutOfMemory>
    requires { (name : List ℕ) × (boot : BootMap) × IsCopyWith set.now name boot }
    ensures { IfOk result (λ value. (name : List ℕ) (boot : BootMap) → IsCopyWith set.now name boot
        → boot_value_in (Some boot) key.now ≡ Ok value) }
{
    let checked = check_again(alloc, set, Use::Copy)?;
    match look_up(&checked, key) {
        Some(found) => Ok(Some(found.value)),
        None => Ok(None),
    }
}

/// What a set that was checked lists of a flag, or none.
pub(crate) fn look_up(set: &Checked<'_>, key: &FlagKey<'_>) -> Option<Found>
    ensures { result ≡ option_map flag_found (listed (parts_in set.now) key.now.0 key.now.1) }
{
    look_within::<Brand>(set, key, Blank::new(1))
}

fn look_within<L: Ledger>(set: &Checked<'_>, key: &FlagKey<'_>, blank: Blank) -> Option<Found>
    requires name { blank.name ≡ L.name }
    requires parts { blank.parts ≡ L.parts }
    requires one { L.parts ≡ 1 }
    ensures { result ≡ option_map flag_found (listed (parts_in set.now) key.now.0 key.now.1) }
{
    let mut steps = Steps::<L>::new(blank);
    find_flag(set, key.package(), key.flag(), &mut steps)
}
