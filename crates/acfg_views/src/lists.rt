//! `flag.val` and `flag.info`: one byte a flag, by global index.

ghost use Rattle.std.specs.Prelude.{◌≡◌, ◌<◌};
ghost use Rattle.acfg_views.specs.Layout.{flag_val_type, flag_info_type};
ghost use Rattle.acfg_views.specs.Reading.{Answers, IsOpenList, opened_list, byte_in};

use crate::fault::ViewFault;
use crate::list_file::{ListFile, open_list};
use std::marker::Model;

const VALUES_TYPE: u8 = 2;

const INFOS_TYPE: u8 = 3;

/// `flag.val`, opened: contracts see its bytes and what its header says.
#[derive(Debug, Drop)]
pub struct Values<'a> {
    list: ListFile<'a>,
}

impl<'a> Model for Values<'a> {
    ghost use Rattle.acfg_views.specs.Layout.{flag_val_type};
    ghost use Rattle.acfg_views.specs.Reading.{OpenList, IsOpenList};
    ghost use Rattle.acfg_views.specs.Views.{open_list_of};

    ghost Value = { OpenList };

    ghost view = { λ it. open_list_of it.list };

    ghost invariant = { λ it. IsOpenList flag_val_type (open_list_of it.list) };
}

impl<'a> Values<'a> {
    /// Opens the file: its header is read in byte order.
    ///
    /// # Errors
    ///
    /// The first fault of the header: a field that isn't whole, or one that fails its test.
    pub fn open(bytes: &'a [u8]) -> Result<Values<'a>, ViewFault>
        ensures { Answers (λ list. list) result (opened_list flag_val_type bytes.now) }
    {
        let list = open_list(VALUES_TYPE, bytes)?;
        Ok(Values { list })
    }

    /// The version of the file.
    pub fn version(&self) -> u32
        ensures { result ≡ self.now.version }
    {
        self.list.version
    }

    /// The name of the container, a slice of the file.
    pub fn container(&self) -> &'a str
        ensures { result.now ≡ self.now.container }
    {
        self.list.container
    }

    /// How many flags there are.
    pub fn count(&self) -> u32
        ensures count { result ≡ self.now.count }
        ensures open { IsOpenList flag_val_type self.now }
    {
        self.list.count
    }

    /// The value of the flag with this global index, 0 or 1 in a lawful set.
    pub fn at(&self, i: u32) -> u8
        requires { i < self.now.count }
        ensures { result ≡ byte_in self.now i }
    {
        self.list.bytes[self.list.first_byte as usize + i as usize]
    }
}

/// `flag.info`, opened: contracts see its bytes and what its header says.
#[derive(Debug, Drop)]
pub struct Infos<'a> {
    list: ListFile<'a>,
}

impl<'a> Model for Infos<'a> {
    ghost use Rattle.acfg_views.specs.Layout.{flag_info_type};
    ghost use Rattle.acfg_views.specs.Reading.{OpenList, IsOpenList};
    ghost use Rattle.acfg_views.specs.Views.{open_list_of};

    ghost Value = { OpenList };

    ghost view = { λ it. open_list_of it.list };

    ghost invariant = { λ it. IsOpenList flag_info_type (open_list_of it.list) };
}

impl<'a> Infos<'a> {
    /// Opens the file: its header is read in byte order.
    ///
    /// # Errors
    ///
    /// The first fault of the header: a field that isn't whole, or one that fails its test.
    pub fn open(bytes: &'a [u8]) -> Result<Infos<'a>, ViewFault>
        ensures { Answers (λ list. list) result (opened_list flag_info_type bytes.now) }
    {
        let list = open_list(INFOS_TYPE, bytes)?;
        Ok(Infos { list })
    }

    /// The version of the file.
    pub fn version(&self) -> u32
        ensures { result ≡ self.now.version }
    {
        self.list.version
    }

    /// The name of the container, a slice of the file.
    pub fn container(&self) -> &'a str
        ensures { result.now ≡ self.now.container }
    {
        self.list.container
    }

    /// How many flags there are.
    pub fn count(&self) -> u32
        ensures count { result ≡ self.now.count }
        ensures open { IsOpenList flag_info_type self.now }
    {
        self.list.count
    }

    /// The bits of the flag with this global index: 1 server override, 2 read-write, 4 local override.
    pub fn at(&self, i: u32) -> u8
        requires { i < self.now.count }
        ensures { result ≡ byte_in self.now i }
    {
        self.list.bytes[self.list.first_byte as usize + i as usize]
    }
}
