//! Lists of rows, as files keep them: one row after another, in order of their keys.

ghost use Rattle.std.specs.Prelude.{◌≡◌, ◌++◌, ℕ, List, IfOk, OnOk, MatchBool, option_map};
ghost use Rattle.std.specs.List.{flat_map};
ghost use Rattle.std.specs.Cmp.{IsTotalOrder};
ghost use Rattle.std.specs.Ordering.{is_lt};
ghost use Rattle.acfg_base.specs.Found.{Finds};
ghost use Rattle.acfg_base.specs.Places.{AreInOrder, SomeStepDown};
ghost use Rattle.acfg_store.specs.Taken.{Takes, IsPrefix, AreRows};

use acfg_base::{InOrder, OutOfMemory, Row};
use std::alloc::Global;

/// A row of a list in a file.
pub(crate) trait Spelled: Row {
    /// The bytes of a row.
    ghost spelled: { Self → List ℕ };

    /// Which rows may stand in a file.
    ghost IsLawful: { Self → Type 0 };

    /// The row at the front of the bytes, and what is behind it.
    fn take(alloc: Global, bytes: &[u8]) -> Result<Option<(Self, &[u8])>, OutOfMemory>
    where
        Self: Sized,
        ensures { IfOk result (λ taken. Takes spelled IsLawful bytes.now (option_map (λ t. (t.0, t.1.now)) taken)) };

    /// Puts the row behind the bytes.
    fn put(&self, out: &mut Vec<u8>) -> Result<(), OutOfMemory>
        ensures { OnOk result (out.new.items ≡ out.old.items ++ spelled self.now) };

    /// Whether the row's key is below another one's.
    fn is_before(&self, later: &Self) -> bool
        ensures { result ≡ is_lt (Self.cmp (Self.key self.now) (Self.key later.now)) };

    /// What holds of all rows: each stands at the front of bytes in one way, and their keys have an order.
    fn laws()
        ensures unique { IsPrefix spelled IsLawful }
        ensures total { IsTotalOrder Self.cmp };
}

/// So many rows, in order of their keys, that are all of the bytes.
pub(crate) fn read_rows<Y: Spelled + Drop>(
    alloc: Global,
    count: u32,
    bytes: &[u8],
) -> Result<Option<InOrder<Y>>, OutOfMemory>
    ensures { IfOk result (Finds (λ rows. AreRows Y.spelled Y.IsLawful count bytes.now rows
        × AreInOrder Y.cmp Y.key rows)) }
{
    match take_rows(alloc, count, bytes)? {
        None => Ok(None),
        Some(rows) => {
            Y::laws();
            if are_in_order(&rows) {
                Ok(Some(InOrder::from_sorted(rows)))
            } else {
                Ok(None)
            }
        }
    }
}

fn take_rows<Y: Spelled + Drop>(
    alloc: Global,
    count: u32,
    bytes: &[u8],
) -> Result<Option<Vec<Y>>, OutOfMemory>
    ensures { IfOk result (λ found. Finds (AreRows Y.spelled Y.IsLawful count bytes.now)
        (option_map (λ rows. rows.items) found)) }
{
    Y::laws();
    let mut rows = Vec::new(alloc);
    let mut rest = bytes;
    for _ in 0..count {
        match Y::take(alloc, rest)? {
            None => return Ok(None),
            Some((row, behind)) => {
                rows.push(row)?;
                rest = behind;
            }
        }
    }
    if rest.is_empty() {
        Ok(Some(rows))
    } else {
        Ok(None)
    }
}

fn are_in_order<Y: Spelled>(rows: &[Y]) -> bool
    ensures { MatchBool result (AreInOrder Y.cmp Y.key rows.now) (SomeStepDown Y.cmp Y.key rows.now) }
{
    Y::laws();
    rows.is_sorted_by(|a, b| a.is_before(b))
}

/// Puts rows behind the bytes, one after another.
pub(crate) fn put_rows<Y: Spelled>(out: &mut Vec<u8>, rows: &[Y]) -> Result<(), OutOfMemory>
    ensures { OnOk result (out.new.items ≡ out.old.items ++ flat_map Y.spelled rows.now) }
{
    for row in rows {
        row.put(out)?;
    }
    Ok(())
}
