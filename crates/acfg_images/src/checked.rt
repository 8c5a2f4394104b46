//! A set that was checked.

ghost use Rattle.std.specs.Prelude.{◌≡◌, ◌==◌, ◌<◌};
ghost use Rattle.acfg_views.specs.Reading.{byte_in};

use crate::set::ImageSet;
use crate::views::Views;
use acfg_views::{FlagMap, PackageMap};
use std::marker::Model;

/// A set in which no fault stands. Contracts see the four files, opened.
#[derive(Debug, Drop)]
pub struct Checked<'a> {
    set: &'a ImageSet,
    views: Views<'a>,
}

impl<'a> Model for Checked<'a> {
    ghost use Rattle.acfg_images.specs.Faults.{Opened};
    ghost use Rattle.acfg_images.specs.Views.{opened_of, IsCheckedSet};

    ghost Value = { Opened };

    ghost view = { λ it. opened_of it.views };

    ghost invariant = { λ it. IsCheckedSet it.set.now (opened_of it.views) };
}

impl<'a> Checked<'a> {
    ghost use Rattle.acfg_images.specs.Faults.{HasNoFault, files_in};
    ghost use Rattle.acfg_images.specs.Laws.{AreBytes};
    ghost use Rattle.acfg_images.specs.Views.{opened_of, AreOpenFiles};

    pub(crate) fn new(set: &'a ImageSet, views: Views<'a>) -> Checked<'a>
        requires faultless { HasNoFault (opened_of views) }
        requires files { set.now ≡ files_in (opened_of views) }
        ensures { result ≡ opened_of views.entry }
    {
        Checked { set, views }
    }

    /// The files that were checked.
    pub(crate) fn set(&self) -> &'a ImageSet
        ensures files { result.now ≡ files_in self.now }
        ensures checked { HasNoFault self.now }
    {
        self.set
    }

    /// Tells that each of the four files is open as its view shows it; does nothing else.
    pub fn are_open(&self)
        ensures { AreOpenFiles self.now }
    {
        let _buckets = self.views.package_map.buckets();
        let _buckets = self.views.flag_map.buckets();
        let _count = self.views.values.count();
        let _count = self.views.infos.count();
    }

    /// The name of the container, a slice of `package.map`.
    pub fn container(&self) -> &'a str
        ensures container { result.now ≡ self.now.package_map.container }
        ensures checked { HasNoFault self.now }
    {
        self.views.package_map.container()
    }

    /// How many flags there are: as many values, and as many bits.
    pub fn count(&self) -> u32
        ensures flags { result ≡ self.now.flag_map.count }
        ensures values { result ≡ self.now.values.count }
        ensures bits { result ≡ self.now.infos.count }
    {
        self.views.flag_map.count()
    }

    /// The view of `package.map`.
    pub fn package_view(&self) -> &PackageMap<'a>
        ensures { result.now ≡ self.now.package_map }
    {
        &self.views.package_map
    }

    /// The view of `flag.map`.
    pub fn flag_view(&self) -> &FlagMap<'a>
        ensures { result.now ≡ self.now.flag_map }
    {
        &self.views.flag_map
    }

    /// The value of the flag with this global index.
    pub fn value_at(&self, i: u32) -> bool
        requires { i < self.now.values.count }
        ensures { result ≡ (byte_in self.now.values i == 1) }
    {
        self.views.values.at(i) == 1
    }

    /// The bits of the flag with this global index: 1 server override, 2 read-write, 4 local override.
    pub fn bits_at(&self, i: u32) -> u8
        requires { i < self.now.infos.count }
        ensures { result ≡ byte_in self.now.infos i }
    {
        self.views.infos.at(i)
    }
}
