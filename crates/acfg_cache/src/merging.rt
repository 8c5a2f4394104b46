//! Several lists of flags merged.

ghost use Rattle.std.specs.Prelude.{◌≡◌, ◌∷◌, ◌++◌, [], All, IfOk, IfErr, OnOk, map, IsPermutation, IsSortedByKey};
ghost use Rattle.std.specs.Prelude.{None, Some};
ghost use Rattle.std.specs.List.{last_or};
ghost use Rattle.std.specs.declared.cmp.Ordering.TheVariants.{Equal};
ghost use Rattle.std.specs.Ordering.{nat_cmp};
ghost use Rattle.std.specs.Cmp.Lexicographic.{slice_cmp};
ghost use Rattle.acfg_decls.specs.Flags.{AreFlags, IsLawful, full_name};
ghost use Rattle.acfg_cache.specs.Merging.{FirstClashIn, IfClash, IsFirstClash, IsMerged, lent};
ghost use Rattle.acfg_cache.specs.Rows.{Adds, Ascend, InRows, IsClashOf, IsFound, IsTaken, key_order};
ghost use Rattle.acfg_cache.specs.Rows.{row_key, row_order, row_read, rows_of, rows_read};

use crate::fault::MergeFault;
use crate::same::is_same;
use acfg_base::Text;
use acfg_decls::{Flag, Flags};
use std::alloc::{AllocError, Global};
use std::cmp::Ordering;

/// Joins lists of flags in one, in the order of the bytes of `package.name`. With `dedup`, equal flags of several lists
/// are taken once. It is one sort of all flags.
///
/// # Errors
/// `Clash` where two lists have a flag of one `package.name`, and `dedup` is false or the two flags differ.
pub fn merge(alloc: Global, lists: &[Flags], dedup: bool) -> Result<Flags, MergeFault>
    ensures ok { IfOk result (λ flags. IsMerged lists.now dedup flags) }
    ensures err { IfErr result (λ fault. IfClash fault (IsFirstClash lists.now dedup)) }
{
    let joined = join(alloc, lists, dedup)?;
    let flags = copy_flags(alloc, &joined)?;
    Ok(Flags::from_sorted(flags))
}

/// As `merge`, but for that it copies no flag: those of the lists are lent.
///
/// # Errors
/// As `merge`.
pub fn join<'a>(alloc: Global, lists: &'a [Flags], dedup: bool) -> Result<Vec<&'a Flag>, MergeFault>
    ensures ok { IfOk result (λ flags. IsMerged lists.now dedup (lent flags.items)) }
    ensures err { IfErr result (λ fault. IfClash fault (IsFirstClash lists.now dedup)) }
{
    let mut rows = list_rows(alloc, lists)?;
    sort_rows(&mut rows)?;
    take_rows(alloc, &rows, dedup)
}

fn copy_flags(alloc: Global, flags: &[&Flag]) -> Result<Vec<Flag>, AllocError>
    ensures { IfOk result (λ copies. copies.items ≡ lent flags.now) }
{
    let mut copies = Vec::with_capacity(alloc, flags.len())?;
    for flag in flags {
        copies.push((*flag).clone()?)?;
    }
    Ok(copies)
}

/// A flag, and the position of its list.
#[derive(Clone, Copy, Debug)]
pub struct Row<'a> {
    pub list: usize,
    pub flag: &'a Flag,
}

impl Row<'_> {
    // The order of rows: by the bytes of `package.name`, and then by the list.
    fn compare(&self, other: &Row<'_>) -> Ordering
        ensures { result ≡ row_order (row_read self.now) (row_read other.now) }
    {
        self.flag
            .compare(other.flag)
            .then(self.list.cmp(&other.list))
    }
}

// Sorts rows by their flags' names, and then by their lists.
fn sort_rows(rows: &mut Vec<Row<'_>>) -> Result<(), AllocError>
    ensures permutation { IsPermutation rows.old.items rows.new.items }
    ensures sorted { OnOk result (IsSortedByKey (λ row. row_key (row_read row)) key_order rows.new.items) }
{
    rows.sort_by(|row, other| row.compare(other))?;
    Ok(())
}

// The flags of all lists, one list after another.
fn list_rows(alloc: Global, lists: &[Flags]) -> Result<Vec<Row<'_>>, AllocError>
    ensures rows { IfOk result (λ rows. rows_read rows.items ≡ rows_of 0 lists.now) }
    ensures lawful { OnOk result (All AreFlags lists.now) }
{
    let mut rows = Vec::new(alloc);
    for (list, flags) in lists.iter().enumerate() {
        add_rows(list, flags.list(), &mut rows)?;
    }
    Ok(rows)
}

fn add_rows<'a>(list: usize, flags: &'a [Flag], rows: &mut Vec<Row<'a>>) -> Result<(), AllocError>
    ensures { OnOk result (rows_read rows.new.items
        ≡ rows_read rows.old.items ++ map (λ flag. (list, flag)) flags.now) }
{
    rows.reserve(flags.len())?;
    for flag in flags {
        rows.push(Row { list, flag })?;
    }
    Ok(())
}

// The flags of rows in order, each once, or the first clash.
fn take_rows<'a>(alloc: Global, rows: &[Row<'a>], dedup: bool) -> Result<Vec<&'a Flag>, MergeFault>
    requires ascend { Ascend (rows_read rows.now) }
    requires lawful { All (λ row. IsLawful row.1) (rows_read rows.now) }
    ensures ok { IfOk result (λ flags. IsTaken dedup (rows_read rows.now) (lent flags.items)) }
    ensures err { IfErr result (λ fault. IfClash fault (FirstClashIn (InRows (rows_read rows.now)) dedup)) }
{
    let mut flags = Vec::with_capacity(alloc, rows.len())?;
    for row in rows {
        add_row(alloc, row, dedup, &mut flags)?;
    }
    Ok(flags)
}

// Takes the flag of a row, where it isn't the last one that was taken.
fn add_row<'a>(
    alloc: Global,
    row: &Row<'a>,
    dedup: bool,
    flags: &mut Vec<&'a Flag>,
) -> Result<(), MergeFault>
    ensures ok { OnOk result (Adds dedup row.now.flag.now (lent flags.old.items) (lent flags.new.items)) }
    ensures err { IfErr result (λ fault. IfClash fault (IsClashOf dedup (row_read row.now) (lent flags.old.items))) }
{
    match find_clash(flags, row.flag, dedup) {
        Found::New => {
            flags.push(row.flag)?;
            Ok(())
        }
        Found::Same => Ok(()),
        Found::Clash => Err(MergeFault::Clash(row.list, full_name(alloc, row.flag)?)),
    }
}

/// How a flag stands to the last one of those that were taken: it has another name, it is the same flag, or the two
/// don't go together.
#[derive(Clone, Copy, Debug)]
pub enum Found {
    New,
    Same,
    Clash,
}

fn find_clash(taken: &[&Flag], flag: &Flag, dedup: bool) -> Found
    ensures { IsFound result dedup (last_or None (lent taken.now)) flag.now }
{
    match taken.last() {
        Some(last) => compare_last(*last, flag, dedup),
        None => Found::New,
    }
}

// How a flag stands to the last one that was taken.
fn compare_last(last: &Flag, flag: &Flag, dedup: bool) -> Found
    ensures { IsFound result dedup (Some last.now) flag.now }
{
    match flag.compare(last) {
        Ordering::Less => Found::New,
        Ordering::Equal => compare_namesake(last, flag, dedup),
        Ordering::Greater => Found::New,
    }
}

// The same where the two have one name.
fn compare_namesake(last: &Flag, flag: &Flag, dedup: bool) -> Found
    requires { slice_cmp nat_cmp (full_name flag.now) (full_name last.now) ≡ Equal }
    ensures { IsFound result dedup (Some last.now) flag.now }
{
    if dedup {
        if is_same(last, flag) {
            Found::Same
        } else {
            Found::Clash
        }
    } else {
        Found::Clash
    }
}

// `package.name`.
fn full_name(alloc: Global, flag: &Flag) -> Result<Text, AllocError>
    ensures { IfOk result (λ name. name ≡ full_name flag.now) }
{
    let mut name = String::from_str(alloc, flag.package.as_str())?;
    name.push_str(".")?;
    name.push_str(flag.name.as_str())?;
    Ok(Text::new(name))
}
