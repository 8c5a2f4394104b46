//! The containers of a list are read, one after another.

ghost use Rattle.std.specs.Prelude.{◌≡◌, All, Err, IfErr, IfOk, IsTrue};
ghost use Rattle.acfg_device.specs.Only.{OnlyReads};
ghost use Rattle.acfg_model.specs.State.{IsDigest, IsValidContainer};
ghost use Rattle.acfg_store.specs.Kept.{IsCopied, IsIndexed, entry_of};
ghost use Rattle.acfg_store.specs.Opening.{AreOfRows, KeepsFiles, TellsOfRow, TellsOfRows, entries_of};
ghost use Rattle.acfg_store.specs.Stands.{Holds, recorded};

use crate::containers::{Kept, judge};
use crate::gathering::gather;
use crate::records::Recorded;
use crate::store_fault::{StoreFault, name_fault};
use acfg_device::Panel;
use std::alloc::Global;

/// A container of the list, as its files hold it.
pub(crate) fn open_one<P: Panel>(
    alloc: Global,
    panel: &mut P,
    dir: &str,
    row: &Recorded,
) -> Result<Kept, StoreFault>
    requires { IsDigest row.now.digest }
    ensures listed { IfOk result (λ kept. recorded (entry_of kept) ≡ row.now) }
    ensures valid { IfOk result (λ kept. IsValidContainer kept.container) }
    ensures indexed { IfOk result IsIndexed }
    ensures copied { IfOk result IsCopied }
    ensures holds { IsTrue P.tells → IfOk result (λ kept. Holds (P.files panel.old) dir.now (entry_of kept)) }
    ensures keeps { IsTrue P.tells → IfOk result (KeepsFiles (P.files panel.old) dir.now) }
    ensures damaged { IsTrue P.tells → IfErr result (TellsOfRow (P.files panel.old) dir.now row.now) }
    ensures reads { OnlyReads P.Panel panel.old panel.new (result ≡ Err StoreFault.Device) }
{
    let read = match gather(alloc, panel, dir, row) {
        Ok(read) => read,
        Err(fault) => return Err(StoreFault::from(fault)),
    };
    match judge(alloc, row, read) {
        Ok(kept) => Ok(kept),
        Err(fault) => Err(name_fault(alloc, dir, row.name.as_str(), fault)),
    }
}

/// All containers of the list.
pub(crate) fn open_all<P: Panel>(
    alloc: Global,
    panel: &mut P,
    dir: &str,
    rows: &[Recorded],
) -> Result<Vec<Kept>, StoreFault>
    requires { All (λ row. IsDigest row.digest) rows.now }
    ensures of { IfOk result (λ kept. AreOfRows rows.now kept.items) }
    ensures holds { IsTrue P.tells → IfOk result
        (λ kept. All (Holds (P.files panel.old) dir.now) (entries_of kept.items)) }
    ensures keeps { IsTrue P.tells → IfOk result (λ kept. All (KeepsFiles (P.files panel.old) dir.now) kept.items) }
    ensures damaged { IsTrue P.tells → IfErr result (TellsOfRows (P.files panel.old) dir.now rows.now) }
    ensures reads { OnlyReads P.Panel panel.old panel.new (result ≡ Err StoreFault.Device) }
{
    let mut kept = Vec::with_capacity(alloc, rows.len())?;
    for row in rows {
        match open_one(alloc, panel, dir, row) {
            Ok(one) => kept.push(one)?,
            Err(fault) => return Err(fault),
        }
    }
    Ok(kept)
}
