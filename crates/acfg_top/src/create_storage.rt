//! `create-storage CONTAINER DIR CACHE..`: the merged flags of caches, written as a container's image set.

ghost use Rattle.std.specs.Prelude.{◌≡◌, [], Ok, IsTrue, IfOk, IfErr, OnErr, false, length, map};
ghost use Rattle.std.specs.Prelude.{option_map, slice_index_or, string_bytes, unwrap_or};
ghost use Rattle.std.specs.Str.{bytes_eq};
ghost use Rattle.acfg_base.specs.Names.{IsContainer};
ghost use Rattle.acfg_cache.specs.Merging.{IsMerged, lent};
ghost use Rattle.acfg_device.specs.Only.{OnlyReads};
ghost use Rattle.acfg_images.specs.Build.{built, compiled_flag};
ghost use Rattle.acfg_images.specs.Image.{package_names};
ghost use Rattle.acfg_top.specs.Bodies.{AreAmong, Comes, IfRefused, IsMade, IsOutputOf, IsProduct};
ghost use Rattle.acfg_top.specs.Bodies.{inputs_of, writes_in};
ghost use Rattle.acfg_top.specs.Caches.{Clashing};
ghost use Rattle.acfg_top.specs.CreateStorage.{CreateStorageGives, FlagsStored, IsFileIn};
ghost use Rattle.acfg_top.specs.CreateStorage.{StoredGives, set_writes, stored_line};
ghost use Rattle.acfg_top.specs.CreateStorage.{stored_words as words_of_stored};
ghost use Rattle.acfg_top.specs.Outcome.{Outcome, Done, IsBroken, OnlyWrites, Refused};
ghost use Rattle.acfg_top.specs.Query.{file_in};

use crate::caches::read_caches;
use crate::create_cache::container_of;
use crate::ending::{Ending, Stop};
use crate::inputs::{Found, Input, read_inputs};
use crate::output::{Output, only_told, put_out};
use crate::query::path_in;
use crate::told::{Halt, Refusal, Told, refused};
use crate::words::StorageWords;
use acfg_base::{ContainerName, OutOfMemory};
use acfg_cache::{MergeFault, join};
use acfg_commit::NewFile;
use acfg_decls::{Flag, Flags};
use acfg_device::{Device, Panel};
use acfg_images::{BuildFault, FileType, ImageSet, build_lent, digest};
use std::alloc::{AllocError, Global};
use std::collections::BTreeSet;

/// Writes the image set of caches, and says how many flags and packages it has, and its digest.
pub fn create_storage<D: Device>(
    alloc: Global,
    asked: StorageWords<'_>,
    device: &mut D,
) -> Result<Ending, Stop>
    requires { IsContainer asked.container.now }
    ensures told { IsTrue D.tells → IfOk result (λ ending. Comes D.Panel
        (CreateStorageGives asked.entry.container.now asked.entry.dir.now
        (map string_bytes asked.entry.caches.now) (D.files device.old)) ending device.old device.new) }
    ensures broken { IsTrue D.tells → OnErr result ((outcome : Outcome)
        → CreateStorageGives asked.entry.container.now asked.entry.dir.now
        (map string_bytes asked.entry.caches.now) (D.files device.old) outcome
        → IsBroken D.Panel outcome device.old device.new) }
    ensures writes { OnlyWrites D.Panel (IsFileIn asked.entry.dir.now) device.old device.new
        (result ≡ Err Stop.Failed) }
{
    let output = store_caches(alloc, asked.container, asked.dir, asked.caches, device)?;
    put_out(device, &output)
}

/// The image set of caches as files in a directory that are still to be written, and what there is to tell of it; or
/// what there is to tell of the cache or the directory that is refused.
pub fn store_caches<P: Panel>(
    alloc: Global,
    container: &str,
    dir: &str,
    caches: &[String],
    panel: &mut P,
) -> Result<Output, Stop>
    requires { IsContainer container.now }
    ensures told { IsTrue P.tells → IfOk result (IsProduct (CreateStorageGives container.now dir.now
        (map string_bytes caches.now) (P.files panel.old))) }
    ensures names { IfOk result (AreAmong (IsFileIn dir.now)) }
    ensures reads { OnlyReads P.Panel panel.old panel.new (result ≡ Err Stop.Failed) }
{
    match read_inputs(alloc, caches, panel)? {
        Found::All(inputs) => judged(alloc, container, dir, &inputs),
        Found::Missing(name) => Ok(only_told(alloc, refused(alloc, name, Refusal::Missing)?)),
    }
}

// What there is to write and to tell of caches.
fn judged(alloc: Global, container: &str, dir: &str, inputs: &[Input<'_>]) -> Result<Output, Stop>
    requires { IsContainer container.now }
    ensures told { IfOk result (IsProduct (StoredGives container.now dir.now (inputs_of inputs.now))) }
    ensures names { IfOk result (AreAmong (IsFileIn dir.now)) }
    ensures err { IfErr result (λ stop. stop ≡ Stop.OutOfMemory) }
{
    match store_inputs(alloc, container, dir, inputs) {
        Ok(output) => Ok(output),
        Err(Halt::Refused(told)) => Ok(only_told(alloc, told)),
        Err(Halt::OutOfMemory) => Err(Stop::OutOfMemory),
    }
}

// The image set of caches that were read, as files, and what there is to tell of it; or the refusal of a cache or of
// the directory.
fn store_inputs(
    alloc: Global,
    container: &str,
    dir: &str,
    inputs: &[Input<'_>],
) -> Result<Output, Halt>
    requires { IsContainer container.now }
    ensures ok { IfOk result (IsMade (StoredGives container.now dir.now (inputs_of inputs.now))) }
    ensures names { IfOk result (AreAmong (IsFileIn dir.now)) }
    ensures err { IfErr result (IfRefused (λ file what. StoredGives container.now dir.now (inputs_of inputs.now)
        (Refused file what))) }
{
    let lists = read_caches(alloc, Some(container), inputs)?;
    let flags = merged(alloc, inputs, &lists)?;
    store_flags(alloc, container, dir, &flags)
}

// The flags of caches together, or the refusal of the first clash.
fn merged<'a>(
    alloc: Global,
    inputs: &[Input<'_>],
    lists: &'a [Flags],
) -> Result<Vec<&'a Flag>, Halt>
    ensures ok { IfOk result (λ flags. IsMerged lists.now false (lent flags.items)) }
    ensures err { IfErr result (IfRefused (Clashing (map (λ input. input.name) (inputs_of inputs.now))
        lists.now false)) }
{
    match join(alloc, lists, false) {
        Ok(flags) => Ok(flags),
        Err(MergeFault::Clash(list, name)) => Err(Halt::Refused(refused(
            alloc,
            input_name_at(inputs, list),
            Refusal::Clash(name.as_str()),
        )?)),
        Err(MergeFault::OutOfMemory) => Err(Halt::OutOfMemory),
    }
}

fn input_name_at<'a>(inputs: &[Input<'a>], position: usize) -> &'a str
    ensures { result.now ≡ slice_index_or (map (λ input. input.name) (inputs_of inputs.now)) position [] }
{
    match inputs.get(position) {
        Some(input) => input.name,
        None => "",
    }
}

// The image set of merged flags as files in a directory, and what there is to tell of it.
fn store_flags(alloc: Global, container: &str, dir: &str, flags: &[&Flag]) -> Result<Output, Halt>
    requires { IsContainer container.now }
    ensures ok { IfOk result (IsMade (FlagsStored container.now dir.now (lent flags.now))) }
    ensures names { IfOk result (AreAmong (IsFileIn dir.now)) }
    ensures err { IfErr result (IfRefused (λ file what. FlagsStored container.now dir.now (lent flags.now)
        (Refused file what))) }
{
    let name = container_of(alloc, container)?;
    let set = image_of(alloc, &name, dir, flags)?;
    Ok(product(alloc, dir, flags, set)?)
}

// The image of flags, or the refusal of the directory for a limit that it would pass.
fn image_of(
    alloc: Global,
    container: &ContainerName,
    dir: &str,
    flags: &[&Flag],
) -> Result<ImageSet, Halt>
    ensures ok { IfOk result (λ set. built container.now (map compiled_flag (lent flags.now)) ≡ Ok set) }
    ensures err { IfErr result (IfRefused (λ file what. FlagsStored container.now dir.now (lent flags.now)
        (Refused file what))) }
{
    match build_lent(alloc, container, flags) {
        Ok(set) => Ok(set),
        Err(BuildFault::OutOfMemory) => Err(Halt::OutOfMemory),
        Err(fault) => Err(Halt::Refused(refused(alloc, dir, Refusal::Limit(fault))?)),
    }
}

// The files of an image set, and what there is to tell of it.
fn product(alloc: Global, dir: &str, flags: &[&Flag], set: ImageSet) -> Result<Output, OutOfMemory>
    ensures { IfOk result (IsOutputOf (Done (stored_line (map compiled_flag (lent flags.now)) set)
        (set_writes dir.now set))) }
{
    let text = stored_text(alloc, flags, &set)?;
    let files = set_files(alloc, dir, set)?;
    Ok(Output {
        told: Told {
            ending: Ending::Done,
            text: text.into_bytes(),
        },
        files,
    })
}

fn set_files(alloc: Global, dir: &str, set: ImageSet) -> Result<Vec<NewFile>, OutOfMemory>
    ensures { IfOk result (λ files. writes_in files.items ≡ set_writes dir.now set) }
{
    let (package_map, flag_map, flag_val, flag_info) = set.into_files();
    let mut files = Vec::new(alloc);
    files.push(file_of(alloc, dir, FileType::PackageMap, package_map)?)?;
    files.push(file_of(alloc, dir, FileType::FlagMap, flag_map)?)?;
    files.push(file_of(alloc, dir, FileType::FlagVal, flag_val)?)?;
    files.push(file_of(alloc, dir, FileType::FlagInfo, flag_info)?)?;
    Ok(files)
}

fn file_of(alloc: Global, dir: &str, file: FileType, bytes: Vec<u8>) -> Result<NewFile, AllocError>
    ensures name { IfOk result (λ made. string_bytes made.name ≡ file_in dir.now file) }
    ensures bytes { IfOk result (λ made. made.bytes.items ≡ bytes.items) }
{
    let name = path_in(alloc, dir, file)?;
    Ok(NewFile { name, bytes })
}

fn stored_text(alloc: Global, flags: &[&Flag], set: &ImageSet) -> Result<String, AllocError>
    ensures { IfOk result (λ text. string_bytes text ≡ stored_line (map compiled_flag (lent flags.now)) set.now) }
{
    let packages = count_packages(alloc, flags)?;
    stored_words(alloc, flags.len(), packages, &digest(set))
}

fn stored_words(
    alloc: Global,
    flags: usize,
    packages: usize,
    digest: &[u8; 32],
) -> Result<String, AllocError>
    ensures { IfOk result (λ text. string_bytes text ≡ words_of_stored flags packages digest.now) }
{
    let digits = hex::encode(alloc, digest.as_slice())?;
    format!(in alloc; "stored {flags} flags in {packages} packages {digits}\n")
}

// How many packages flags are of.
fn count_packages(alloc: Global, flags: &[&Flag]) -> Result<usize, AllocError>
    ensures { IfOk result (λ count. count ≡ length (package_names (map compiled_flag (lent flags.now)))) }
{
    let mut names = BTreeSet::new(alloc);
    let mut last = None;
    for flag in flags {
        let name = flag.package.as_str();
        if is_last(last, name) {
            continue;
        }
        names.insert(name)?;
        last = Some(name);
    }
    Ok(names.len())
}

// Whether a name is the one that came last: most flags are of the package of the flag before them.
fn is_last(last: Option<&str>, name: &str) -> bool
    ensures { result ≡ unwrap_or (option_map (λ last. bytes_eq last.now name.now) last.entry) false }
{
    match last {
        Some(last) => last == name,
        None => false,
    }
}
