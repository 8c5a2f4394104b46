//! What the machine shows of its state.

ghost use Rattle.std.specs.Prelude.{◌≡◌, option_map};
ghost use Rattle.std.specs.FinMap.{get};
ghost use Rattle.acfg_model.specs.Views.{boot_of};

use acfg_base::{ContainerName, Entry, FlagRow, InOrder, Name, PackageName, Release, Row, place};
use std::cmp::Ordering;

/// A flag and the value that overrides the release's.
#[derive(Clone, Debug, Drop)]
pub struct Override {
    pub package: PackageName,
    pub flag: Name,
    pub value: bool,
}

impl Row for Override {
    ghost use Rattle.acfg_base.specs.Release as release;
    ghost use Rattle.acfg_model.specs.Views.{override_key};

    ghost Key = { release.Key };

    ghost key = { override_key };

    ghost cmp = { release.key_cmp };
}

/// Overrides of flags, in order of package bytes, then flag bytes.
pub type Overrides = InOrder<Override>;

/// A flag as it was booted, and whether it had a server override and a local one then.
#[derive(Clone, Debug, Drop)]
pub struct Booted {
    pub entry: Entry,
    pub server: bool,
    pub local: bool,
}

impl Row for Booted {
    ghost use Rattle.acfg_base.specs.Release as release;
    ghost use Rattle.acfg_model.specs.Views.{booted_key};

    ghost Key = { release.Key };

    ghost key = { booted_key };

    ghost cmp = { release.key_cmp };
}

impl FlagRow for Booted {
    ghost use Rattle.acfg_model.specs.Views.{booted_key};

    ghost flag_key = { booted_key };

    fn compare(&self, package: &str, flag: &str) -> Ordering {
        self.entry.compare(package, flag)
    }
}

/// The flags of a container as they were at its last boot, in order of package bytes, then flag bytes.
pub type BootCopy = InOrder<Booted>;

/// The value of a flag in a boot copy, where that has the flag.
pub fn boot_value(copy: &BootCopy, package: &str, flag: &str) -> Option<bool>
    ensures { result ≡ option_map (λ flag. flag.value) (get (boot_of copy.now) («package».now, flag.now)) }
{
    let flags = copy.as_slice();
    match place(flags, package, flag) {
        Ok(at) => {
            let booted = &flags[at];
            Some(booted.entry.value)
        }
        Err(_) => None,
    }
}

/// A container: its release with the digest of the release's files, its overrides, and its boot copy.
#[derive(Debug, Drop)]
pub struct ContainerState {
    pub name: ContainerName,
    pub digest: [u8; 32],
    pub release: Release,
    pub server: Overrides,
    pub local: Overrides,
    pub boot: Option<BootCopy>,
}

impl Row for ContainerState {
    ghost use Rattle.std.specs.Prelude.{List, ℕ};
    ghost use Rattle.acfg_model.specs.State.{name_cmp};
    ghost use Rattle.acfg_model.specs.Views.{name_of_state};

    ghost Key = { List ℕ };

    ghost key = { name_of_state };

    ghost cmp = { name_cmp };
}

/// The containers of a device, in order of the bytes of their names.
pub type State = InOrder<ContainerState>;
