//! A set that was loaded for an update: the release that its container takes, or why the update is refused.

ghost use Rattle.std.specs.Prelude.{◌≡◌, IfOk, MatchResult, map};
ghost use Rattle.acfg_base.specs.Places.{AreInOrder};
ghost use Rattle.acfg_base.specs.Release.{key_cmp, release_of};
ghost use Rattle.acfg_images.specs.declared.fault.ImageFault.TheVariants as image;
ghost use Rattle.acfg_store.specs.Admitted.{IsAdmitted, IsChecked, IsListing, IsRefusalOf, incoming_of};
ghost use Rattle.acfg_store.specs.Placed.{entry_at_row, placed_key};
ghost use Rattle.acfg_store.specs.Updated.{IsIncoming};

use crate::installing::Incoming;
use crate::overrides::entry_of;
use crate::placed::{Placed, flags_in, indexes_of};
use acfg_base::{ContainerName, OutOfMemory, Release};
use acfg_images::{Checked, ImageFault, ImageSet, Use, check, digest};
use acfg_model::Refusal;
use std::alloc::{AllocError, Global};

/// What a set lists: its digest, the release that it holds, the global index of each of the release's flags, and how
/// many flags there are.
#[derive(Debug, Drop)]
pub(crate) struct Listing {
    pub(crate) digest: [u8; 32],
    pub(crate) release: Release,
    pub(crate) indexes: Vec<u32>,
    pub(crate) count: u32,
}

/// The set as a container takes it, where it is a release of that container, and else why the update is refused.
///
/// # Errors
///
/// An allocation was refused.
pub(crate) fn admit(
    alloc: Global,
    name: &ContainerName,
    set: ImageSet,
) -> Result<Result<Incoming, Refusal>, OutOfMemory>
    ensures { IfOk result (IsAdmitted name.now set) }
{
    let found = list_set(alloc, name.as_str(), &set)?;
    match found {
        Ok(listing) => {
            let Listing {
                digest,
                release,
                indexes,
                count,
            } = listing;
            Ok(Ok(Incoming {
                set,
                digest,
                release,
                indexes,
                count,
            }))
        }
        Err(refusal) => Ok(Err(refusal)),
    }
}

// What the set lists, where it is a release of the container.
fn list_set(
    alloc: Global,
    container: &str,
    set: &ImageSet,
) -> Result<Result<Listing, Refusal>, OutOfMemory>
    ensures { IfOk result (IsListing container.now set.now) }
{
    match check(alloc, set, Use::Release) {
        Ok(checked) => {
            if checked.container() == container {
                let listing = list_release(alloc, set, &checked)?;
                Ok(Ok(listing))
            } else {
                Ok(Err(Refusal::FilesDisagree))
            }
        }
        Err(fault) => {
            let refusal = refusal_of(fault)?;
            Ok(Err(refusal))
        }
    }
}

// What a checked set lists.
fn list_release(
    alloc: Global,
    set: &ImageSet,
    checked: &Checked<'_>,
) -> Result<Listing, OutOfMemory>
    requires { IsChecked set.now checked.now }
    ensures { IfOk result (λ listing. IsIncoming checked.now.package_map.container (incoming_of set.now listing)) }
{
    let flags = flags_in(alloc, checked)?;
    let indexes = indexes_of(alloc, flags.as_slice())?;
    let release = release_of(alloc, flags)?;
    Ok(Listing {
        digest: digest(set),
        release,
        indexes,
        count: checked.count(),
    })
}

// The release of a set's flags.
fn release_of(alloc: Global, flags: Vec<Placed>) -> Result<Release, AllocError>
    requires { AreInOrder key_cmp placed_key flags.items }
    ensures { IfOk result (λ release. release ≡ release_of (map entry_at_row flags.items)) }
{
    let entries = flags.into_iter().map(|flag| entry_of(flag)).collect(alloc)?;
    Ok(Release::from_sorted(entries))
}

// Why an update is refused whose set has a fault.
fn refusal_of(fault: ImageFault) -> Result<Refusal, OutOfMemory>
    ensures { MatchResult result (IsRefusalOf fault) (λ _. fault ≡ image.OutOfMemory) }
{
    match fault {
        ImageFault::Disagree(..) => Ok(Refusal::FilesDisagree),
        ImageFault::TooLarge(_)
        | ImageFault::View(..)
        | ImageFault::Node(..)
        | ImageFault::Twice(..)
        | ImageFault::Chain(..)
        | ImageFault::Bits(..) => Ok(Refusal::BadImage),
        ImageFault::OutOfMemory => Err(OutOfMemory),
    }
}
