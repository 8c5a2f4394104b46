//! The check of a whole set.

ghost use Rattle.std.specs.Prelude.{◌≡◌, Ok};
ghost use Rattle.acfg_images.specs.Faults.{checked, opened_set, too_large};
ghost use Rattle.acfg_images.specs.Laws.{TellsSets};
ghost use Rattle.acfg_images.specs.Code.{Tells};
ghost use Rattle.acfg_images.specs.Room.{IsUnused};
ghost use Rattle.acfg_images.specs.Views.{Answers, opened_of};

use crate::checked::Checked;
use crate::disagree::find_behind_maps;
use crate::fault::ImageFault;
use crate::maps::{check_flags, check_packages};
use crate::purpose::Use;
use crate::room::{Room, take_room};
use crate::set::ImageSet;
use crate::views::{Views, open_views};
use acfg_views::{Steps, are_too_large};
use std::alloc::Global;
use std::marker::Brand;
use std::sync::ledger::{Blank, Ledger};

/// Checks a set for a use. The answer is `Ok` exactly where the files are a set of some release and notes, which it
/// then determines, want of memory aside.
///
/// # Errors
///
/// The first fault in the order of `ImageFault`, with its file and numbers.
pub fn check(alloc: Global, set: &ImageSet, purpose: Use) -> Result<Checked<'_>, ImageFault>
    ensures first { Tells (λ it. it) result (checked purpose set.now) }
    ensures sets { TellsSets purpose set.now result }
{
    match check_counted::<Brand>(alloc, set, purpose, Blank::new(1)) {
        Ok(checked) => {
            checked.are_open();
            Ok(checked)
        }
        Err(fault) => Err(fault),
    }
}

fn check_counted<L: Ledger>(
    alloc: Global,
    set: &ImageSet,
    purpose: Use,
    blank: Blank,
) -> Result<Checked<'_>, ImageFault>
    requires name { blank.name ≡ L.name }
    requires parts { blank.parts ≡ L.parts }
    requires one { L.parts ≡ 1 }
    ensures { Tells (λ it. it) result (checked purpose set.now) }
{
    let views = open_set(set)?;
    let room = take_room(alloc, set, &views)?;
    let mut steps = Steps::<L>::new(blank);
    check_views(room, set, views, purpose, &mut steps)
}

// Opens files that aren't too large together.
#[tactic(auto, unfolding(crate::specs::Faults::opened_set))]
fn open_set(set: &ImageSet) -> Result<Views<'_>, ImageFault>
    ensures { Answers opened_of result (opened_set set.now) }
{
    match find_too_large(set) {
        Some(fault) => Err(fault),
        None => open_views(set),
    }
}

// Checks what stands behind the headers.
fn check_views<'a, L: Ledger>(
    room: Room<'a>,
    set: &'a ImageSet,
    views: Views<'a>,
    purpose: Use,
    steps: &mut Steps<L>,
) -> Result<Checked<'a>, ImageFault>
    requires room { IsUnused room }
    requires opened { opened_set set.now ≡ Ok (opened_of views) }
    ensures { Tells (λ it. it) result (checked purpose set.now) }
{
    let Room {
        packages,
        package_tables,
        flags,
        flag_tables,
        numbers,
    } = room;
    let size = set.package_map().len() as u32;
    let packages = check_packages(packages, package_tables, &views.package_map, size, steps)?;
    let size = set.flag_map().len() as u32;
    let flags = check_flags(flags, flag_tables, &views.flag_map, size, steps)?;
    match find_behind_maps(numbers, &views, purpose, &packages.nodes, &flags.nodes)? {
        Some(fault) => Err(fault),
        None => Ok(Checked::new(set, views)),
    }
}

// Whether the files have too many bytes together.
fn find_too_large(set: &ImageSet) -> Option<ImageFault>
    ensures { result ≡ too_large set.now }
{
    let bytes = (set.package_map().len() as u64)
        .saturating_add(set.flag_map().len() as u64)
        .saturating_add(set.flag_val().len() as u64)
        .saturating_add(set.flag_info().len() as u64);
    if are_too_large(bytes) {
        return Some(ImageFault::TooLarge(bytes));
    }
    None
}
