//! The folder of a name, and the folders in which names changed.

ghost use Rattle.std.specs.Prelude.{◌≡◌, ◌≢◌, ◌-◌, ◌<◌, ◌≤◌, ℕ, [], Contains, IsTrue, OnOk, OnErr, length, map};
ghost use Rattle.std.specs.Prelude.{slice_index, string_bytes};
ghost use Rattle.acfg_hostdev.specs.Folder.{AllStay, end_of, folder, is_other, is_slash};

use acfg_device::OutOfMemory;
use std::alloc::Global;
use std::marker::Model;

/// How many bytes there are up to the last slash, and with it.
fn end_of_slash(bytes: &[u8]) -> usize
    ensures value { result ≡ end_of is_slash bytes.now }
    ensures within { result ≤ length bytes.now }
    ensures last { 0 < result → slice_index bytes.now (result - 1) ≡ 47 }
{
    let mut end = bytes.len();
    while end > 0 && bytes[end - 1] != b'/' {
        end -= 1;
    }
    end
}

/// How many bytes there are up to the last one that is no slash, and with it.
fn end_of_part(bytes: &[u8]) -> usize
    ensures value { result ≡ end_of is_other bytes.now }
    ensures within { result ≤ length bytes.now }
    ensures last { 0 < result → slice_index bytes.now (result - 1) ≢ 47 }
    ensures behind { result < length bytes.now → slice_index bytes.now result ≡ 47 }
{
    let mut end = bytes.len();
    while end > 0 && bytes[end - 1] == b'/' {
        end -= 1;
    }
    end
}

/// The folder in which a name stands.
pub fn folder_of(name: &str) -> &str
    ensures { result.now ≡ folder name.now }
{
    let bytes = name.as_bytes();
    let whole = end_of_part(bytes);
    let front = end_of_slash(&bytes[..whole]);
    let stem = end_of_part(&bytes[..front]);
    if stem > 0 {
        return &name[..stem];
    }
    if name.starts_with('/') { "/" } else { "." }
}

/// Folders in which names changed since they were last synced.
#[derive(Drop)]
pub struct Folders {
    names: Vec<String>,
}

/// Contracts see the folders, in the order in which they were noted.
impl Model for Folders {
    ghost use Rattle.std.specs.Prelude.{ℕ, List, map, string_bytes};

    ghost Value = { List (List ℕ) };

    ghost view = { λ folders. map string_bytes folders.names.items };
}

impl Folders {
    /// No folder.
    pub fn new(alloc: Global) -> Folders
        ensures { result ≡ [] }
    {
        Folders {
            names: Vec::new(alloc),
        }
    }

    /// Notes a folder. Where it was noted already, this takes no memory.
    pub fn note(&mut self, alloc: Global, name: &str) -> Result<(), OutOfMemory>
        ensures ok { OnOk result (Contains self.new name.now) }
        ensures err { OnErr result (self.new ≡ self.old) }
        ensures kept { AllStay self.old self.new }
    {
        if is_among(self.names.as_slice(), name) {
            return Ok(());
        }
        self.names.push(String::from_str(alloc, name)?)?;
        Ok(())
    }

    /// The folders that were noted.
    pub fn names(&self) -> &[String]
        ensures { map string_bytes result.now ≡ self.now }
    {
        self.names.as_slice()
    }

    /// Forgets them all.
    pub fn forget(&mut self)
        ensures { self.new ≡ [] }
    {
        self.names.clear();
    }
}

fn is_among(names: &[String], name: &str) -> bool
    ensures { IsTrue result → Contains (map string_bytes names.now) name.now }
{
    for noted in names {
        if noted.as_str() == name {
            return true;
        }
    }
    false
}
