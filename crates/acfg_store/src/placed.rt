//! The flags of a set in order of their names, each with its place in the set's files.

ghost use Rattle.std.specs.Prelude.{◌≡◌, IfOk, map};
ghost use Rattle.acfg_base.specs.Release.{HasLawfulKeys, entries_of};
ghost use Rattle.acfg_images.specs.declared.purpose.Use.{Use};
ghost use Rattle.acfg_images.specs.Faults.{parts_in};
ghost use Rattle.acfg_images.specs.Files.{Files};
ghost use Rattle.acfg_images.specs.Laws.{release_of};
ghost use Rattle.acfg_images.specs.Set.{IsSetOf};
ghost use Rattle.acfg_store.specs.Placed.{AreFlagsOf, index_of};

use acfg_base::{Entry, Name, OutOfMemory, PackageName};
use acfg_images::{Checked, flags_of};
use acfg_lookup::{Found, find_flag};
use acfg_views::Steps;
use std::alloc::{AllocError, Global};
use std::marker::Brand;
use std::sync::ledger::{Blank, Ledger};

/// A flag of a set, with what the set's files have of it.
#[derive(Debug, Drop)]
pub struct Placed {
    pub package: PackageName,
    pub flag: Name,
    pub found: Found,
}

/// The flags of a set, in order of package bytes, then flag bytes.
pub(crate) fn flags_in(alloc: Global, set: &Checked<'_>) -> Result<Vec<Placed>, OutOfMemory>
    requires { (files : Files) × (use_of : Use) × IsSetOf files use_of (parts_in set.now) }
    ensures flags { IfOk result (λ rows. AreFlagsOf (parts_in set.now) rows.items) }
    ensures keys { IfOk result (λ _. HasLawfulKeys (release_of set.now)) }
{
    let release = flags_of(alloc, set)?;
    let _count = release.len();
    place_all::<Brand>(alloc, set, release.into_entries(), Blank::new(1))
}

/// The global indexes of flags, in the order of the flags.
pub(crate) fn indexes_of(alloc: Global, flags: &[Placed]) -> Result<Vec<u32>, AllocError>
    ensures { IfOk result (λ indexes. indexes.items ≡ map index_of flags.now) }
{
    flags.iter().map(|flag| flag.found.index).collect(alloc)
}

fn place_all<L: Ledger>(
    alloc: Global,
    set: &Checked<'_>,
    entries: Vec<Entry>,
    blank: Blank,
) -> Result<Vec<Placed>, OutOfMemory>
    requires name { blank.name ≡ L.name }
    requires parts { blank.parts ≡ L.parts }
    requires one { L.parts ≡ 1 }
    requires entries { entries.items ≡ entries_of (release_of set.now) }
    requires set { (files : Files) × (use_of : Use) × IsSetOf files use_of (parts_in set.now) }
    ensures { IfOk result (λ rows. AreFlagsOf (parts_in set.now) rows.items) }
{
    let mut steps = Steps::<L>::new(blank);
    let mut rows = Vec::with_capacity(alloc, entries.len())?;
    for entry in entries {
        match find_flag(set, entry.package.as_str(), entry.flag.as_str(), &mut steps) {
            Some(found) => rows.push(Placed {
                package: entry.package,
                flag: entry.flag,
                found,
            })?,
            None => unreachable!(),
        }
    }
    Ok(rows)
}
