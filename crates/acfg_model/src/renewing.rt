//! One flag's entry in a boot copy, made anew.

ghost use Rattle.std.specs.Prelude.{◌≡◌};
ghost use Rattle.std.specs.FinMap.{get};
ghost use Rattle.acfg_model.specs.Bodies.{renewed_row};
ghost use Rattle.acfg_model.specs.FlagStates.{boot_renewed};
ghost use Rattle.acfg_model.specs.Step.{entry_refusal};
ghost use Rattle.acfg_model.specs.Views.{boot_of};

use crate::changes::FlagKey;
use crate::containers::FlagState;
use crate::refusals::Refusal;
use crate::views::{BootCopy, Booted};
use acfg_base::{InOrder, Kind, place};

/// Why a flag's entry in a boot copy takes no other value, where that is so.
pub(crate) fn entry_refusal(copy: &BootCopy, key: &FlagKey<'_>) -> Option<Refusal>
    ensures { result ≡ entry_refusal (get (boot_of copy.now) key.now) }
{
    let flags = copy.as_slice();
    match place(flags, key.package(), key.flag()) {
        Ok(at) => {
            let booted = &flags[at];
            match booted.entry.kind {
                Kind::ReadWrite => None,
                Kind::ReadOnly | Kind::Fixed => Some(Refusal::NotBooted),
            }
        }
        Err(_) => Some(Refusal::NotBooted),
    }
}

/// A boot copy in which a flag, where it is there, has the pick of its row and a note of each override. It takes no
/// memory.
pub(crate) fn renewed(copy: BootCopy, key: &FlagKey<'_>, row: &FlagState) -> BootCopy
    ensures { boot_of result ≡ boot_renewed row.now key.now (boot_of copy) }
{
    let mut flags = copy.into_vec();
    match place(&flags, key.package(), key.flag()) {
        Ok(at) => {
            let was = &mut flags[at];
            renew(was, row);
            InOrder::from_sorted(flags)
        }
        Err(_) => InOrder::from_sorted(flags),
    }
}

// Gives a booted flag the pick of its row and a note of each override.
fn renew(was: &mut Booted, row: &FlagState)
    ensures { was.new ≡ renewed_row row.now was.old }
{
    was.entry.value = row.local.unwrap_or(row.server.unwrap_or(row.entry.value));
    was.server = row.server.is_some();
    was.local = row.local.is_some();
}
