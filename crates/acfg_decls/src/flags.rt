//! Compiled flags.

ghost use Rattle.std.specs.Prelude.{◌≡◌, ◌≤◌, All, Any, length, IfOk, IfSome, MatchOption, map, IsPermutation};
ghost use Rattle.std.specs.Prelude.{IsSortedByKey};
ghost use Rattle.std.specs.Bool.{MatchBool};
ghost use Rattle.std.specs.Cmp.Lexicographic.{slice_cmp};
ghost use Rattle.std.specs.FinMap.{len};
ghost use Rattle.std.specs.Ordering.{nat_cmp};
ghost use Rattle.acfg_base.specs.Places.{AreInOrder, SomeStepDown};
ghost use Rattle.acfg_decls.specs.Releases.{entry_of, kind_of, release};
ghost use Rattle.acfg_decls.specs.Flags.{AreFlags, AreNoFlags, IsLawful, full_name};

use crate::order::compare_joined;
use acfg_base::{
    ContainerName, Entry, Kind, Name, OutOfMemory, PackageName, Release, Sequence, Text,
};
use std::alloc::{AllocError, Global};
use std::cmp::Ordering;
use std::marker::Model;

/// Why a flag was made, as a declaration's metadata says.
#[derive(Clone, Copy, Debug, PartialEq, Eq)]
pub enum Purpose {
    Unspecified,
    Feature,
    Bugfix,
}

/// A point of a flag's trace: a file that set the flag, and what the flag was from then on.
#[derive(Debug, Drop)]
pub struct Point {
    /// The file's name, as it was given.
    pub source: Text,
    pub enabled: bool,
    pub writable: bool,
}

impl Clone for Point {
    ghost is_clone = { λ point copy. copy ≡ point };

    fn clone(&self) -> Result<Point, AllocError> {
        let source = self.source.clone()?;
        Ok(Point {
            source,
            enabled: self.enabled,
            writable: self.writable,
        })
    }
}

/// A compiled flag, as AOSP aconfig's `parsed_flag`.
#[derive(Debug, Drop)]
pub struct Flag {
    pub package: PackageName,
    pub name: Name,
    pub namespace: Name,
    pub description: Text,
    pub bugs: Sequence<Text>,
    /// Whether its state is ENABLED.
    pub enabled: bool,
    /// Whether its permission is READ_WRITE.
    pub writable: bool,
    /// Its points, the declaration's first.
    pub trace: Sequence<Point>,
    /// Whether no value may make it READ_WRITE.
    pub fixed: bool,
    pub exported: bool,
    pub container: ContainerName,
    /// None where the declaration has no metadata.
    pub purpose: Option<Purpose>,
}

impl Clone for Flag {
    ghost is_clone = { λ flag copy. copy ≡ flag };

    fn clone(&self) -> Result<Flag, AllocError> {
        Ok(Flag {
            package: self.package.clone()?,
            name: self.name.clone()?,
            namespace: self.namespace.clone()?,
            description: self.description.clone()?,
            bugs: self.bugs.clone()?,
            enabled: self.enabled,
            writable: self.writable,
            trace: self.trace.clone()?,
            fixed: self.fixed,
            exported: self.exported,
            container: self.container.clone()?,
            purpose: self.purpose,
        })
    }
}

impl Flag {
    /// How the flag stands to another one, by the bytes of `package.name`.
    pub fn compare(&self, other: &Flag) -> Ordering
        ensures { result ≡ slice_cmp nat_cmp (full_name self.now) (full_name other.now) }
    {
        compare_joined(
            self.package.as_str().as_bytes(),
            self.name.as_str().as_bytes(),
            other.package.as_str().as_bytes(),
            other.name.as_str().as_bytes(),
        )
    }

    /// What may become of the flag's value on the device.
    pub fn kind(&self) -> Kind
        ensures { result ≡ kind_of self.now }
    {
        if self.fixed {
            Kind::Fixed
        } else if self.writable {
            Kind::ReadWrite
        } else {
            Kind::ReadOnly
        }
    }

    // Whether the flag is as a list of compiled flags may hold it.
    fn is_lawful(&self) -> bool
        ensures { MatchBool result (IsLawful self.now) (IsLawful self.now → ⊥) }
    {
        !(self.fixed && self.writable) && !self.trace.as_slice().is_empty()
    }
}

/// Compiled flags in the order of the bytes of `package.name`. Contracts see a list.
#[derive(Debug, Drop)]
pub struct Flags {
    list: Vec<Flag>,
}

impl Model for Flags {
    ghost use Rattle.std.specs.Prelude.{List};
    ghost use Rattle.acfg_decls.specs.declared.flags.Flag.{Flag};
    ghost use Rattle.acfg_decls.specs.Flags.{AreFlags};

    ghost Value = { List Flag };

    ghost view = { λ flags. flags.list.items };

    ghost invariant = { λ flags. AreFlags flags.list.items };
}

impl Flags {
    /// The flags of a list in any order; none exactly where two have one name, one is both fixed and writable, or one
    /// has no point.
    pub fn new(_alloc: Global, mut list: Vec<Flag>) -> Result<Option<Flags>, OutOfMemory>
        ensures flags { IfOk result (λ flags.
            MatchOption flags (AreNoFlags list.items) (λ flags. IsPermutation list.items flags)) }
        ensures lawful { IfOk result (λ flags. IfSome flags AreFlags) }
    {
        if !are_lawful(&list) {
            return Ok(None);
        }
        sort(&mut list);
        if !rise(&list) {
            return Ok(None);
        }
        Ok(Some(Flags { list }))
    }

    /// The flags of a list that is in order. It takes no memory.
    pub fn from_sorted(list: Vec<Flag>) -> Flags
        requires { AreFlags list.items }
        ensures { result ≡ list.items }
    {
        Flags { list }
    }

    /// The flags as a list that can be taken apart. It takes no memory.
    pub fn into_vec(self) -> Vec<Flag>
        ensures all { result.items ≡ self }
        ensures lawful { AreFlags result.items }
    {
        let Flags { list } = self;
        list
    }

    /// The release that the flags make: each one's kind and state.
    pub fn release(&self, alloc: Global) -> Result<Release, OutOfMemory>
        ensures release { IfOk result (λ made. made ≡ release self.now) }
        ensures few { IfOk result (λ made. len made ≤ length self.now) }
    {
        let _ = &self.list;
        let entries = list_entries(alloc, &self.list)?;
        match Release::new(alloc, entries)? {
            Some(made) => Ok(made),
            None => unreachable!(),
        }
    }

    /// The flags, in order.
    pub fn list(&self) -> &[Flag]
        ensures all { result.now ≡ self.now }
        ensures lawful { AreFlags self.now }
    {
        self.list.as_slice()
    }
}

fn list_entries(alloc: Global, list: &[Flag]) -> Result<Vec<Entry>, AllocError>
    ensures { IfOk result (λ entries. entries.items ≡ map entry_of list.now) }
{
    let mut entries = Vec::with_capacity(alloc, list.len())?;
    for flag in list {
        entries.push(make_entry(flag)?)?;
    }
    Ok(entries)
}

fn make_entry(flag: &Flag) -> Result<Entry, AllocError>
    ensures { IfOk result (λ entry. entry ≡ entry_of flag.now) }
{
    Ok(Entry {
        package: flag.package.clone()?,
        flag: flag.name.clone()?,
        kind: flag.kind(),
        value: flag.enabled,
    })
}

// Whether each flag is lawful.
fn are_lawful(list: &[Flag]) -> bool
    ensures { MatchBool result (All IsLawful list.now) (Any (λ flag. IsLawful flag → ⊥) list.now) }
{
    for flag in list {
        if !flag.is_lawful() {
            return false;
        }
    }
    true
}

// Sorts flags by the bytes of `package.name`.
fn sort(list: &mut Vec<Flag>)
    ensures permutation { IsPermutation list.old.items list.new.items }
    ensures sorted { IsSortedByKey full_name (slice_cmp nat_cmp) list.new.items }
{
    list.sort_unstable_by(|flag, other| flag.compare(other));
}

// Whether each flag stands before the next one.
fn rise(list: &[Flag]) -> bool
    ensures { MatchBool result (AreInOrder (slice_cmp nat_cmp) full_name list.now)
        (SomeStepDown (slice_cmp nat_cmp) full_name list.now) }
{
    list.is_sorted_by(|flag, other| flag.compare(other).is_lt())
}
