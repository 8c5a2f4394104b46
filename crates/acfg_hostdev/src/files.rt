//! Calls on the host's files and folders.

ghost use Rattle.std.specs.Prelude.{◌≡◌, [], Contains, OnOk, OnErr};
ghost use Rattle.acfg_hostdev.specs.Folder.{AllStay, folder};

use crate::faults::HostFault;
use crate::folders::{Folders, folder_of};
use crate::transfer::{MAX_BYTES, read_whole, write_whole};
use acfg_device::OutOfMemory;
use std::alloc::Global;
use std::fs;
use std::fs::{File, OpenFile, OpenOptions};
use std::io::{ErrorKind, Seek, SeekFrom};
use std::rt::Files;

/// The file's bytes, or nothing where the host says that there is no such file.
pub fn read_file<R: Files>(
    rt: &R,
    alloc: Global,
    name: &str,
) -> Result<Option<Vec<u8>>, HostFault> {
    let mut file = match File::open(rt, name) {
        Ok(file) => file,
        Err(error) => {
            return if error.kind() == ErrorKind::NotFound {
                Ok(None)
            } else {
                Err(HostFault::Failed)
            };
        }
    };
    let size = file.metadata()?.len();
    if size > MAX_BYTES as u64 {
        return Err(HostFault::Failed);
    }
    let bytes = read_whole(alloc, &mut file, size as usize)?;
    Ok(Some(bytes))
}

/// Notes the folder of a name, before the name changes in it.
fn note_folder_of(folders: &mut Folders, alloc: Global, name: &str) -> Result<(), HostFault>
    ensures ok { OnOk result (Contains folders.new (folder name.now)) }
    ensures err { OnErr result (result ≡ Err HostFault.OutOfMemory) }
    ensures kept { AllStay folders.old folders.new }
{
    match folders.note(alloc, folder_of(name)) {
        Ok(()) => Ok(()),
        Err(OutOfMemory) => Err(HostFault::OutOfMemory),
    }
}

/// Makes a folder and those above it, where they are missing.
fn make_folder<R: Files>(
    rt: &R,
    folders: &mut Folders,
    alloc: Global,
    name: &str,
) -> Result<(), HostFault>
    ensures noted { (result ≡ Err HostFault.OutOfMemory → ⊥) → Contains folders.new (folder name.now) }
    ensures kept { AllStay folders.old folders.new }
{
    note_folder_of(folders, alloc, name)?;
    if make_one(rt, name)? {
        return Ok(());
    }
    let above = folder_of(name);
    if above.len() < name.len() {
        make_folder(rt, folders, alloc, above)?;
        if make_one(rt, name)? {
            return Ok(());
        }
    }
    Err(HostFault::Failed)
}

/// Whether a folder was made or is there; not where the one above it is missing.
fn make_one<R: Files>(rt: &R, name: &str) -> Result<bool, HostFault>
    ensures { OnErr result (result ≡ Err HostFault.Failed) }
{
    match fs::create_dir(rt, name) {
        Ok(()) => Ok(true),
        Err(error) => match error.kind() {
            ErrorKind::AlreadyExists => Ok(true),
            ErrorKind::NotFound => Ok(false),
            _ => Err(HostFault::Failed),
        },
    }
}

/// Opens a file to be written anew, and makes it where it is missing; nothing where its folder is missing.
fn open_anew<R: Files>(rt: &R, name: &str) -> Result<Option<R::File>, HostFault>
    ensures { OnErr result (result ≡ Err HostFault.Failed) }
{
    let opened = OpenOptions::new()
        .write(true)
        .create(true)
        .truncate(true)
        .open(rt, name);
    match opened {
        Ok(file) => Ok(Some(file)),
        Err(error) => {
            if error.kind() == ErrorKind::NotFound {
                Ok(None)
            } else {
                Err(HostFault::Failed)
            }
        }
    }
}

/// Gives the file these bytes in the place of all that it has, and makes it and the folders above it where they
/// are missing.
pub fn write_file<R: Files>(
    rt: &R,
    folders: &mut Folders,
    alloc: Global,
    name: &str,
    bytes: &[u8],
) -> Result<(), HostFault>
    ensures noted { (result ≡ Err HostFault.OutOfMemory → ⊥) → Contains folders.new (folder name.now) }
    ensures kept { AllStay folders.old folders.new }
{
    note_folder_of(folders, alloc, name)?;
    if let Some(mut file) = open_anew(rt, name)? {
        return write_whole(&mut file, bytes);
    }
    make_folder(rt, folders, alloc, folder_of(name))?;
    match open_anew(rt, name)? {
        Some(mut file) => write_whole(&mut file, bytes),
        None => Err(HostFault::Failed),
    }
}

/// Puts bytes into a file that is there, from a place on.
pub fn write_file_at<R: Files>(rt: &R, name: &str, at: u64, bytes: &[u8]) -> Result<(), HostFault> {
    let mut file = OpenOptions::new().write(true).open(rt, name)?;
    file.seek(SeekFrom::Start(at))?;
    write_whole(&mut file, bytes)
}

/// Waits until the host says that a file, or a folder, is on its disk.
fn sync_one<R: Files>(rt: &R, name: &str) -> Result<(), HostFault>
    ensures { OnErr result (result ≡ Err HostFault.Failed) }
{
    let file = File::open(rt, name)?;
    file.sync_all()?;
    Ok(())
}

/// Waits until the host says that the file is on its disk, and notes its folder: a process that was killed may
/// have made the file and noted nothing.
pub fn sync_file<R: Files>(
    rt: &R,
    folders: &mut Folders,
    alloc: Global,
    name: &str,
) -> Result<(), HostFault>
    ensures noted { (result ≡ Err HostFault.OutOfMemory → ⊥) → Contains folders.new (folder name.now) }
    ensures kept { AllStay folders.old folders.new }
{
    note_folder_of(folders, alloc, name)?;
    sync_one(rt, name)
}

/// Gives a file another name.
pub fn rename_file<R: Files>(
    rt: &R,
    folders: &mut Folders,
    alloc: Global,
    from: &str,
    to: &str,
) -> Result<(), HostFault>
    ensures left { (result ≡ Err HostFault.OutOfMemory → ⊥) → Contains folders.new (folder from.now) }
    ensures entered { (result ≡ Err HostFault.OutOfMemory → ⊥) → Contains folders.new (folder to.now) }
    ensures kept { AllStay folders.old folders.new }
{
    note_folder_of(folders, alloc, from)?;
    note_folder_of(folders, alloc, to)?;
    match fs::rename(rt, from, to) {
        Ok(()) => Ok(()),
        Err(_error) => Err(HostFault::Failed),
    }
}

/// Takes the name away; where there is none, nothing changes.
pub fn remove_file<R: Files>(
    rt: &R,
    folders: &mut Folders,
    alloc: Global,
    name: &str,
) -> Result<(), HostFault>
    ensures noted { (result ≡ Err HostFault.OutOfMemory → ⊥) → Contains folders.new (folder name.now) }
    ensures kept { AllStay folders.old folders.new }
{
    note_folder_of(folders, alloc, name)?;
    match fs::remove_file(rt, name) {
        Ok(()) => Ok(()),
        Err(error) => {
            if error.kind() == ErrorKind::NotFound {
                Ok(())
            } else {
                Err(HostFault::Failed)
            }
        }
    }
}

/// Syncs each folder in which names changed, and then forgets them; where one can't be synced, none is forgotten.
pub fn sync_folders<R: Files>(rt: &R, folders: &mut Folders) -> Result<(), HostFault>
    ensures ok { OnOk result (folders.new ≡ []) }
    ensures err { OnErr result (folders.new ≡ folders.old) }
{
    for name in folders.names() {
        sync_one(rt, name.as_str())?;
    }
    folders.forget();
    Ok(())
}
