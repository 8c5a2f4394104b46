//! `query DIR P F`: one flag of the set of storage files in a directory.

ghost use Rattle.std.specs.Prelude.{◌≡◌, ◌++◌, IsTrue, IfOk, IfErr, OnErr, codes, string_bytes};
ghost use Rattle.std.specs.Option.{option_map};
ghost use Rattle.acfg_base.specs.Words.{bool_word};
ghost use Rattle.acfg_device.specs.Only.{OnlyReads, OnlySays};
ghost use Rattle.acfg_images.specs.declared.purpose.Use.TheVariants.{Copy as for_a_copy};
ghost use Rattle.acfg_images.specs.Faults.{checked, parts_in};
ghost use Rattle.acfg_images.specs.Set.{listed};
ghost use Rattle.acfg_lookup.specs.Lookup.{flag_found};
ghost use Rattle.acfg_top.specs.Bodies.{Comes, IsOf, refusal_words};
ghost use Rattle.acfg_top.specs.Outcome.{Outcome, IsBroken, Refused};
ghost use Rattle.acfg_top.specs.Query.{QueryGives, file_in, all_four, set_in, told_of, judged as given};
ghost use Rattle.acfg_top.specs.Query.{answer_line, found_line};
ghost use Rattle.acfg_top.specs.Query.{kind_name as name_of_kind};

use crate::ending::{Ending, Stop};
use crate::image_words::{faulty_file, file_name};
use crate::told::{Refusal, Told, refused, tell};
use crate::words::FlagWords;
use acfg_base::Kind;
use acfg_device::Panel;
use acfg_images::{Checked, FileType, ImageFault, ImageSet, Use, check};
use acfg_lookup::{Found, find_flag};
use acfg_views::Steps;
use std::alloc::{AllocError, Global};
use std::marker::Brand;
use std::sync::ledger::{Blank, Ledger};

/// Tells the kind and the value of a flag, or that there is none.
pub fn query<P: Panel>(
    alloc: Global,
    dir: &str,
    asked: FlagWords<'_>,
    panel: &mut P,
) -> Result<Ending, Stop>
    ensures told { IsTrue P.tells → IfOk result (λ ending. Comes P.Panel
        (QueryGives dir.now asked.entry.package.now asked.entry.flag.now (P.files panel.old)) ending
        panel.old panel.new) }
    ensures broken { IsTrue P.tells → OnErr result ((outcome : Outcome)
        → QueryGives dir.now asked.entry.package.now asked.entry.flag.now (P.files panel.old) outcome
        → IsBroken P.Panel outcome panel.old panel.new) }
    ensures says { OnlySays P.Panel panel.old panel.new (result ≡ Err Stop.Failed) }
{
    let told = answer(alloc, dir, asked, panel)?;
    tell(panel, &told)
}

// What the files in a directory have to tell of a flag.
fn answer<P: Panel>(
    alloc: Global,
    dir: &str,
    asked: FlagWords<'_>,
    panel: &mut P,
) -> Result<Told, Stop>
    ensures told { IsTrue P.tells → IfOk result (IsOf (given dir.now asked.entry.package.now asked.entry.flag.now
        (set_in dir.now (P.files panel.old)))) }
    ensures reads { OnlyReads P.Panel panel.old panel.new (result ≡ Err Stop.Failed) }
{
    match read_set(alloc, dir, panel)? {
        Ok(set) => judged(alloc, dir, asked, &set),
        Err(missing) => Ok(refused_in(alloc, dir, missing, Refusal::Missing)?),
    }
}

// Reads the four files, or tells the first one that isn't there.
fn read_set<P: Panel>(
    alloc: Global,
    dir: &str,
    panel: &mut P,
) -> Result<Result<ImageSet, FileType>, Stop>
    ensures set { IsTrue P.tells → IfOk result (λ set. set ≡ set_in dir.now (P.files panel.old)) }
    ensures reads { OnlyReads P.Panel panel.old panel.new (result ≡ Err Stop.Failed) }
{
    let package_map = read_file(alloc, dir, FileType::PackageMap, panel)?;
    let flag_map = read_file(alloc, dir, FileType::FlagMap, panel)?;
    let flag_val = read_file(alloc, dir, FileType::FlagVal, panel)?;
    let flag_info = read_file(alloc, dir, FileType::FlagInfo, panel)?;
    Ok(set_of(package_map, flag_map, flag_val, flag_info))
}

// Reads one of the files, where it is there.
fn read_file<P: Panel>(
    alloc: Global,
    dir: &str,
    file: FileType,
    panel: &mut P,
) -> Result<Option<Vec<u8>>, Stop>
    ensures found { IsTrue P.tells → IfOk result (λ found. option_map (λ bytes. bytes.items) found
        ≡ P.files panel.old (file_in dir.now file)) }
    ensures reads { OnlyReads P.Panel panel.old panel.new (result ≡ Err Stop.Failed) }
{
    let path = path_in(alloc, dir, file)?;
    Ok(panel.read(alloc, path.as_str())?)
}

/// Where one of the files stands.
pub fn path_in(alloc: Global, dir: &str, file: FileType) -> Result<String, AllocError>
    ensures { IfOk result (λ path. string_bytes path ≡ file_in dir.now file) }
{
    let name = file_name(file);
    format!(in alloc; "{dir}/{name}")
}

// The set of four files, or the first one that isn't there.
fn set_of(
    package_map: Option<Vec<u8>>,
    flag_map: Option<Vec<u8>>,
    flag_val: Option<Vec<u8>>,
    flag_info: Option<Vec<u8>>,
) -> Result<ImageSet, FileType>
    ensures { result ≡ all_four (option_map (λ bytes. bytes.items) package_map)
        (option_map (λ bytes. bytes.items) flag_map) (option_map (λ bytes. bytes.items) flag_val)
        (option_map (λ bytes. bytes.items) flag_info) }
{
    let Some(package_map) = package_map else {
        return Err(FileType::PackageMap);
    };
    let Some(flag_map) = flag_map else {
        return Err(FileType::FlagMap);
    };
    let Some(flag_val) = flag_val else {
        return Err(FileType::FlagVal);
    };
    let Some(flag_info) = flag_info else {
        return Err(FileType::FlagInfo);
    };
    Ok(ImageSet::new(package_map, flag_map, flag_val, flag_info))
}

// What a set of four files has to tell.
fn judged(alloc: Global, dir: &str, asked: FlagWords<'_>, set: &ImageSet) -> Result<Told, Stop>
    ensures told { IfOk result (IsOf (told_of dir.now asked.entry.package.now asked.entry.flag.now
        (checked for_a_copy set.now))) }
    ensures err { IfErr result (λ stop. stop ≡ Stop.OutOfMemory) }
{
    match check(alloc, set, Use::Copy) {
        Ok(set) => Ok(Told {
            ending: Ending::Done,
            text: answer_text(alloc, asked, look_up(&set, asked))?.into_bytes(),
        }),
        Err(ImageFault::OutOfMemory) => Err(Stop::OutOfMemory),
        Err(fault) => Ok(refused_in(alloc, dir, faulty_file(fault), Refusal::Image(fault))?),
    }
}

// The refusal of one of the files.
fn refused_in(
    alloc: Global,
    dir: &str,
    file: FileType,
    refusal: Refusal<'_>,
) -> Result<Told, AllocError>
    ensures { IfOk result (IsOf (Refused (file_in dir.now file) (refusal_words refusal.entry))) }
{
    let path = path_in(alloc, dir, file)?;
    refused(alloc, path.as_str(), refusal)
}

// Looks the flag up, counting nothing.
fn look_up(set: &Checked<'_>, asked: FlagWords<'_>) -> Option<Found>
    ensures { result ≡ option_map flag_found (listed (parts_in set.now) asked.entry.package.now asked.entry.flag.now) }
{
    look_up_counted::<Brand>(Blank::new(1), set, asked)
}

fn look_up_counted<L: Ledger>(
    blank: Blank,
    set: &Checked<'_>,
    asked: FlagWords<'_>,
) -> Option<Found>
    requires name { blank.name ≡ L.name }
    requires parts { blank.parts ≡ L.parts }
    requires one { L.parts ≡ 1 }
    ensures { result ≡ option_map flag_found (listed (parts_in set.now) asked.entry.package.now asked.entry.flag.now) }
{
    let mut steps = Steps::<L>::new(blank);
    find_flag(set, asked.package, asked.flag, &mut steps)
}

// The line that is told of what was found.
fn answer_text(
    alloc: Global,
    asked: FlagWords<'_>,
    found: Option<Found>,
) -> Result<String, AllocError>
    ensures { IfOk result (λ text. string_bytes text ≡ answer_line asked.entry.package.now asked.entry.flag.now
        (option_map (λ flag. (flag.kind, flag.value)) found)) }
{
    match found {
        Some(found) => found_text(alloc, asked, found.kind, found.value),
        None => String::from_str(alloc, "none\n"),
    }
}

fn found_text(
    alloc: Global,
    asked: FlagWords<'_>,
    kind: Kind,
    value: bool,
) -> Result<String, AllocError>
    ensures { IfOk result (λ text. string_bytes text
        ≡ found_line asked.entry.package.now asked.entry.flag.now kind value) }
{
    let package = asked.package;
    let flag = asked.flag;
    let kind = kind_name(kind);
    let value = value_name(value);
    format!(in alloc; "{package}.{flag}: {kind} {value}\n")
}

fn kind_name(kind: Kind) -> &'static str
    ensures { result.now ≡ name_of_kind kind }
{
    match kind {
        Kind::ReadWrite => "read-write",
        Kind::ReadOnly => "read-only",
        Kind::Fixed => "fixed",
    }
}

fn value_name(value: bool) -> &'static str
    ensures { result.now ≡ bool_word value }
{
    if value { "true" } else { "false" }
}
