//! A change of overrides, in the containers that are kept.

ghost use Rattle.std.specs.Prelude.{MatchResult};
ghost use Rattle.acfg_store.specs.Opening.{AreKept};
ghost use Rattle.acfg_store.specs.Planned.{IsChange, IsChangedAt, IsRefusedFor};
ghost use Rattle.acfg_store.specs.ChangedNow.{IsChangeNow, IsChangedNow, IsRefusedNow};

use crate::containers::Kept;
use acfg_model::{Change, ContainerRow, Refusal, place_of};

impl ContainerRow for Kept {
    ghost use Rattle.acfg_store.specs.Kept.{kept_name};

    ghost name_key = { kept_name };

    fn name(&self) -> &str {
        self.name.as_str()
    }
}

impl Kept {
    // Changes the overrides, unless the change is refused. The changed ones are in the other slot.
    fn change(&mut self, change: &Change<'_>) -> Result<(), Refusal>
        ensures { IsChange change.now result self.old self.new }
    {
        match self.container.change(change) {
            Ok(()) => {
                self.override_slot = self.override_slot.other();
                Ok(())
            }
            Err(refusal) => Err(refusal),
        }
    }

    // The same, unless a change that is for now too is refused.
    fn change_for_now(&mut self, change: &Change<'_>) -> Result<(), Refusal>
        ensures { IsChangeNow change.now result self.old self.new }
    {
        match self.container.refused_now(change) {
            Some(refusal) => Err(refusal),
            None => self.change(change),
        }
    }
}

/// Changes the overrides of a container. The answer is where it stands, or why the change is refused.
pub(crate) fn change_in(
    containers: &mut Vec<Kept>,
    name: &str,
    change: &Change<'_>,
) -> Result<usize, Refusal>
    requires { AreKept containers.old.items }
    ensures { MatchResult result (IsChangedAt name.now change.now containers.old.items containers.new.items)
        (IsRefusedFor name.now change.now containers.old.items containers.new.items) }
{
    match place_of(containers, name) {
        Ok(at) => {
            let one = &mut containers[at];
            match one.change(change) {
                Ok(()) => Ok(at),
                Err(refusal) => Err(refusal),
            }
        }
        Err(_) => Err(Refusal::UnknownContainer),
    }
}

/// The same, unless a change that is for now too is refused. The boot copy is as it was.
pub(crate) fn change_now_in(
    containers: &mut Vec<Kept>,
    name: &str,
    change: &Change<'_>,
) -> Result<usize, Refusal>
    requires { AreKept containers.old.items }
    ensures { MatchResult result (IsChangedNow name.now change.now containers.old.items containers.new.items)
        (IsRefusedNow name.now change.now containers.old.items containers.new.items) }
{
    match place_of(containers, name) {
        Ok(at) => {
            let one = &mut containers[at];
            match one.change_for_now(change) {
                Ok(()) => Ok(at),
                Err(refusal) => Err(refusal),
            }
        }
        Err(_) => Err(Refusal::UnknownContainer),
    }
}
