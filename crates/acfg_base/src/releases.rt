//! Releases: which flags a container has, each with its kind and value.

ghost use Rattle.std.specs.Prelude.{◌≡◌, ◌↔◌, IfOk, IfSome, IsNone, IsPermutation, IsSortedByKey, IsTrue};
ghost use Rattle.std.specs.Bool.{MatchBool};
ghost use Rattle.std.specs.FinMap.{get, len};
ghost use Rattle.acfg_base.specs.Release.{key_of, key_cmp, release_of, entries_of, AreNamed, HasLawfulKeys, HasTwins};
ghost use Rattle.acfg_base.specs.Places.{AreInOrder, SomeStepDown};

use crate::memory::OutOfMemory;
use crate::ordered::{FlagRow, place};
use crate::parsed::{Name, PackageName};
use std::alloc::{AllocError, Global};
use std::cmp::Ordering;
use std::marker::Model;

/// What may become of a flag's value on the device, as AOSP aconfig_storage_file's flag types.
#[derive(Clone, Copy, Debug, PartialEq, Eq)]
pub enum Kind {
    /// An override may change it.
    ReadWrite,
    /// It is what the release says.
    ReadOnly,
    /// It is what the release says, and no build may declare it read-write.
    Fixed,
}

/// A flag of a release.
#[derive(Clone, Debug, Drop)]
pub struct Entry {
    pub package: PackageName,
    pub flag: Name,
    pub kind: Kind,
    pub value: bool,
}

impl FlagRow for Entry {
    ghost use Rattle.acfg_base.specs.Release.{key_of};

    ghost flag_key = { key_of };

    fn compare(&self, package: &str, flag: &str) -> Ordering {
        let packages = self.package.as_str().cmp(&package);
        packages.then(self.flag.as_str().cmp(&flag))
    }
}

/// The flags of a container. Contracts see a finite map from package and flag to kind and value.
#[derive(Debug, Drop)]
pub struct Release {
    entries: Vec<Entry>,
}

impl Model for Release {
    ghost use Rattle.acfg_base.specs.Bodies.{IsKept};
    ghost use Rattle.acfg_base.specs.Codes.{release_code};
    ghost use Rattle.acfg_base.specs.Release.{ReleaseMap, release_of};

    ghost Value = { ReleaseMap };

    ghost coded = { release_code };

    ghost view = { λ release. release_of release.entries.items };

    ghost invariant = { λ release. IsKept release.entries.items };
}

impl Release {
    /// The release of these flags, in any order; none where two of them have one package and flag.
    pub fn new(_alloc: Global, mut entries: Vec<Entry>) -> Result<Option<Release>, OutOfMemory>
        ensures twins { IfOk result (λ release. IsNone release ↔ HasTwins entries.items) }
        ensures flags { IfOk result (λ release. IfSome release (λ it. it ≡ release_of entries.items)) }
    {
        sort(&mut entries);
        if !rise(&entries) {
            return Ok(None);
        }
        are_named(&entries);
        Ok(Some(Release { entries }))
    }

    /// The release of flags in order of package bytes, then flag bytes. It takes no memory.
    pub fn from_sorted(entries: Vec<Entry>) -> Release
        requires { AreInOrder key_cmp key_of entries.items }
        ensures { result ≡ release_of entries.items }
    {
        are_named(&entries);
        Release { entries }
    }

    /// How many flags the release has.
    pub fn len(&self) -> usize
        ensures count { result ≡ len self.now }
        ensures keys { HasLawfulKeys self.now }
    {
        self.entries.as_slice().len()
    }

    /// Whether the release has no flag.
    pub fn is_empty(&self) -> bool
        ensures { IsTrue result ↔ (len self.now ≡ 0) }
    {
        self.len() == 0
    }

    /// The flags in order of package bytes, then flag bytes, as a list that can be taken apart.
    pub fn into_entries(self) -> Vec<Entry>
        ensures all { result.items ≡ entries_of self }
        ensures order { AreInOrder key_cmp key_of result.items }
        ensures named { AreNamed result.items }
    {
        let Release { entries } = self;
        entries
    }

    /// The flags in order of package bytes, then flag bytes.
    pub fn entries(&self) -> &[Entry]
        ensures all { result.now ≡ entries_of self.now }
        ensures order { AreInOrder key_cmp key_of result.now }
        ensures named { AreNamed result.now }
    {
        self.entries.as_slice()
    }

    /// A flag's kind and value, where the release has the flag.
    pub fn get(&self, package: &str, flag: &str) -> Option<(Kind, bool)>
        ensures { result ≡ get self.now («package».now, flag.now) }
    {
        match place(&self.entries, package, flag) {
            Ok(at) => {
                let entry = &self.entries[at];
                Some((entry.kind, entry.value))
            }
            Err(_) => None,
        }
    }
}

impl Clone for Release {
    ghost is_clone = { λ release copy. copy ≡ release };

    fn clone(&self) -> Result<Release, AllocError> {
        let entries = self.entries.clone()?;
        Ok(Release { entries })
    }
}

// The names of entries are lawful, as each of them tells.
fn are_named(entries: &[Entry])
    ensures { AreNamed entries.now }
{
    for entry in entries {
        let _package = entry.package.as_str();
        let _flag = entry.flag.as_str();
    }
}

// Sorts entries by their keys.
fn sort(entries: &mut Vec<Entry>)
    ensures permutation { IsPermutation entries.old.items entries.new.items }
    ensures sorted { IsSortedByKey key_of key_cmp entries.new.items }
{
    entries.sort_unstable_by(|a, b| a.compare(b.package.as_str(), b.flag.as_str()));
}

// Whether each entry's key is below the next one's.
fn rise(entries: &[Entry]) -> bool
    ensures { MatchBool result (AreInOrder key_cmp key_of entries.now) (SomeStepDown key_cmp key_of entries.now) }
{
    entries.is_sorted_by(|a, b| a.compare(b.package.as_str(), b.flag.as_str()).is_lt())
}
