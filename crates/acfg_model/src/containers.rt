//! What is kept of a container: the state of each flag of the release, in order, and the boot copy.

ghost use Rattle.std.specs.Prelude.{◌≡◌, IfOk, OnOk, OnErr, map, option_map};
ghost use Rattle.acfg_base.specs.Places.{AreInOrder, map_where};
ghost use Rattle.acfg_base.specs.Release.{key_cmp, entries_of, HasLawfulKeys};
ghost use Rattle.acfg_model.specs.Bodies.{override_in, booted_row, carried_row, IsSettable, IsUnsettable};
ghost use Rattle.acfg_model.specs.FlagStates.{row_key, release_in, server_in, local_in, changed_row, container_in};
ghost use Rattle.acfg_model.specs.FlagStates.{IsChangeable, IsLawful, IsOutcome};
ghost use Rattle.acfg_model.specs.State.{IsDigest, IsValidContainer};
ghost use Rattle.acfg_model.specs.Step.{IsRenewable, boot_map, booted, boot_value_in, fresh, now_refusal, renewed};
ghost use Rattle.acfg_model.specs.Step.{with_change, with_change_now, with_override, with_release};
ghost use Rattle.acfg_model.specs.Views.{boot_of, overrides_of, container_of};

use crate::changes::{Change, FlagKey};
use crate::refusals::Refusal;
use crate::renewing::{entry_refusal, renewed};
use crate::views::{BootCopy, Booted, ContainerState, Override, Overrides, boot_value};
use acfg_base::{ContainerName, Entry, FlagRow, InOrder, Kind, Release, place};
use std::alloc::{AllocError, Global};
use std::cmp::Ordering;
use std::marker::Model;

/// A flag of the release, with its overrides.
#[derive(Debug, Drop)]
pub struct FlagState {
    pub entry: Entry,
    pub server: Option<bool>,
    pub local: Option<bool>,
}

/// Whose override it is.
#[derive(Clone, Copy, Debug, PartialEq, Eq)]
pub enum Setter {
    Server,
    Local,
}

impl FlagRow for FlagState {
    ghost use Rattle.acfg_model.specs.FlagStates.{row_key};

    ghost flag_key = { row_key };

    fn compare(&self, package: &str, flag: &str) -> Ordering {
        self.entry.compare(package, flag)
    }
}

impl FlagState {
    /// The server's override and the local one, as a change of the flag makes them.
    pub fn changed(&self, change: &Change<'_>) -> (Option<bool>, Option<bool>)
        ensures { result ≡ ((changed_row change.now self.now).server, (changed_row change.now self.now).local) }
    {
        match change {
            Change::SetServer(_, value) => (Some(*value), self.local),
            Change::SetLocal(_, value) => (self.server, Some(*value)),
            Change::UnsetLocal(_) => (self.server, None),
        }
    }

    // Takes a change of the flag.
    fn take(&mut self, change: &Change<'_>)
        ensures { self.new ≡ changed_row change.now self.old }
    {
        match change {
            Change::SetServer(_, value) => self.server = Some(*value),
            Change::SetLocal(_, value) => self.local = Some(*value),
            Change::UnsetLocal(_) => self.local = None,
        }
    }

    fn override_in(&self, who: Setter) -> Option<bool>
        ensures { result ≡ override_in who self.now }
    {
        match who {
            Setter::Server => self.server,
            Setter::Local => self.local,
        }
    }

    // The flag as it is booted: with its pick, and a note of each override.
    fn booted(&self) -> Result<Booted, AllocError>
        ensures { IfOk result (λ booted. booted ≡ booted_row self.now) }
    {
        let mut entry = self.entry.clone()?;
        entry.value = self.local.unwrap_or(self.server.unwrap_or(entry.value));
        Ok(Booted {
            entry,
            server: self.server.is_some(),
            local: self.local.is_some(),
        })
    }

    // An entry with the overrides that it had among other rows, where it may have any.
    fn carried(entry: Entry, old: &[FlagState]) -> FlagState
        requires { AreInOrder key_cmp row_key old.now }
        ensures { result ≡ carried_row old.now entry }
    {
        let mut row = FlagState {
            entry,
            server: None,
            local: None,
        };
        if row.entry.kind == Kind::ReadWrite {
            if let Ok(at) = place(old, row.entry.package.as_str(), row.entry.flag.as_str()) {
                let was = &old[at];
                row.server = was.server;
                row.local = was.local;
            }
        }
        row
    }
}

/// What is kept of a container. Contracts see its digest and its finite maps.
#[derive(Debug, Drop)]
pub struct Container {
    digest: [u8; 32],
    rows: Vec<FlagState>,
    boot: Option<BootCopy>,
}

impl Model for Container {
    ghost use Rattle.std.specs.Prelude.{option_map};
    ghost use Rattle.acfg_model.specs.State as state;
    ghost use Rattle.acfg_model.specs.Codes.{container_code};
    ghost use Rattle.acfg_model.specs.FlagStates.{container_in, IsLawful};
    ghost use Rattle.acfg_model.specs.Views.{boot_of};

    ghost Value = { state.Container };

    ghost coded = { container_code };

    ghost view = { λ kept. container_in kept.digest kept.rows.items (option_map boot_of kept.boot) };

    ghost invariant = { λ kept. IsLawful kept.rows.items
        (container_in kept.digest kept.rows.items (option_map boot_of kept.boot)) };
}

impl Container {
    /// The flags of the release with their overrides, in order of package bytes, then flag bytes. It takes no memory.
    pub fn rows(&self) -> &[FlagState]
        ensures order { AreInOrder key_cmp row_key result.now }
        ensures release { self.now.release ≡ release_in result.now }
        ensures server { self.now.server ≡ server_in result.now }
        ensures local { self.now.local ≡ local_in result.now }
        ensures valid { IsValidContainer self.now }
    {
        self.rows.as_slice()
    }

    /// Changes the overrides, unless the change is refused.
    pub fn change(&mut self, change: &Change<'_>) -> Result<(), Refusal>
        ensures outcome { IsOutcome (with_change self.old change.now) result self.old self.new }
        ensures valid { IsValidContainer self.new }
    {
        match place_of_change(&self.rows, change) {
            Ok(at) => {
                let row = &mut self.rows[at];
                row.take(change);
                Ok(())
            }
            Err(refusal) => Err(refusal),
        }
    }

    /// Why a change for now is refused, where it is: there is no boot copy, the change is refused, or the boot copy
    /// lacks the flag or has it as one that no override changes. It takes no memory.
    pub fn refused_now(&self, change: &Change<'_>) -> Option<Refusal>
        ensures refusal { result ≡ now_refusal self.now change.now }
        ensures valid { IsValidContainer self.now }
    {
        match &self.boot {
            None => Some(Refusal::NoBootCopy),
            Some(copy) => match place_of_change(&self.rows, change) {
                Ok(_) => entry_refusal(copy, change.key()),
                Err(refusal) => Some(refusal),
            },
        }
    }

    /// Gives a flag's entry in the boot copy, where that has it as read-write, the flag's pick and a note of each
    /// override that it has now.
    pub fn renew(&mut self, key: &FlagKey<'_>)
        requires { IsRenewable self.old.boot key.now }
        ensures boot { self.new ≡ renewed self.old key.now }
        ensures valid { IsValidContainer self.new }
    {
        if let Ok(at) = place(&self.rows, key.package(), key.flag()) {
            if let Some(copy) = self.boot.take() {
                let row = &self.rows[at];
                self.boot = Some(renewed(copy, key, row));
            }
        }
    }

    /// Changes the overrides, and the flag's entry in the boot copy with them, unless the change is refused.
    pub fn change_now(&mut self, change: &Change<'_>) -> Result<(), Refusal>
        ensures outcome { IsOutcome (with_change_now self.old change.now) result self.old self.new }
        ensures valid { IsValidContainer self.new }
    {
        match self.refused_now(change) {
            Some(refusal) => Err(refusal),
            None => {
                let outcome = self.change(change);
                self.renew(change.key());
                outcome
            }
        }
    }

    /// Changes the overrides, for now or for the next boot, unless the change is refused.
    pub fn change_for(&mut self, change: &Change<'_>, now: bool) -> Result<(), Refusal>
        ensures outcome { IsOutcome (with_override now self.old change.now) result self.old self.new }
        ensures valid { IsValidContainer self.new }
    {
        if now {
            self.change_now(change)
        } else {
            self.change(change)
        }
    }

    /// The container of a release, with no override and no boot copy.
    pub fn new(alloc: Global, digest: [u8; 32], release: Release) -> Result<Container, AllocError>
        requires { HasLawfulKeys release }
        ensures made { IfOk result (λ made. made ≡ fresh digest release) }
        ensures valid { IfOk result IsValidContainer }
    {
        is_digest(&digest);
        let rows = rows_of(alloc, release, &[])?;
        Ok(Container {
            digest,
            rows,
            boot: None,
        })
    }

    /// The container that was kept elsewhere: the flags of its release with their overrides, and its boot copy. It
    /// takes no memory.
    pub fn kept(digest: [u8; 32], rows: Vec<FlagState>, boot: Option<BootCopy>) -> Container
        requires { IsLawful rows.items (container_in digest rows.items (option_map boot_of boot)) }
        ensures { result ≡ container_in digest rows.items (option_map boot_of boot) }
    {
        Container { digest, rows, boot }
    }

    /// Takes another release, and keeps the overrides of the flags that are read-write there.
    pub fn set_release(
        &mut self,
        alloc: Global,
        digest: [u8; 32],
        release: Release,
    ) -> Result<(), AllocError>
        requires { HasLawfulKeys release }
        ensures ok { OnOk result (self.new ≡ with_release self.old digest release) }
        ensures err { OnErr result (self.new ≡ self.old) }
        ensures valid { IsValidContainer self.new }
    {
        is_digest(&digest);
        let rows = rows_of(alloc, release, &self.rows)?;
        self.digest = digest;
        self.rows = rows;
        Ok(())
    }

    /// The boot copy that a boot would make.
    pub fn boot_copy(&self, alloc: Global) -> Result<BootCopy, AllocError>
        ensures { IfOk result (λ copy. boot_of copy ≡ boot_map self.now) }
    {
        let mut flags = Vec::with_capacity(alloc, self.rows.len())?;
        for row in &self.rows {
            flags.push(row.booted()?)?;
        }
        Ok(InOrder::from_sorted(flags))
    }

    /// Takes the boot copy that `boot_copy` made.
    pub fn set_boot(&mut self, copy: BootCopy)
        requires { boot_of copy ≡ boot_map self.old }
        ensures boot { self.new ≡ booted self.old }
        ensures valid { IsValidContainer self.new }
    {
        self.boot = Some(copy);
    }

    /// The container under its name, as the machine shows it.
    pub fn shown(&self, alloc: Global, name: &ContainerName) -> Result<ContainerState, AllocError>
        ensures name { IfOk result (λ state. state.name ≡ name.now) }
        ensures container { IfOk result (λ state. container_of state ≡ self.now) }
    {
        let boot = match &self.boot {
            Some(copy) => Some(copied(alloc, copy)?),
            None => None,
        };
        Ok(ContainerState {
            name: name.clone()?,
            digest: self.digest,
            release: release(alloc, &self.rows)?,
            server: overrides(alloc, &self.rows, Setter::Server)?,
            local: overrides(alloc, &self.rows, Setter::Local)?,
            boot,
        })
    }

    /// The digest of the release's files.
    pub fn digest(&self) -> [u8; 32]
        ensures { result ≡ self.now.digest }
    {
        self.digest
    }

    /// The value of a flag in the boot copy, where that is there and has the flag.
    pub fn boot_value(&self, package: &str, flag: &str) -> Result<Option<bool>, Refusal>
        ensures { result ≡ boot_value_in self.now.boot («package».now, flag.now) }
    {
        match &self.boot {
            Some(copy) => Ok(boot_value(copy, package, flag)),
            None => Err(Refusal::NoBootCopy),
        }
    }
}

fn copied(alloc: Global, copy: &BootCopy) -> Result<BootCopy, AllocError>
    ensures { IfOk result (λ other. other ≡ copy.now) }
{
    let flags = copy.as_slice().to_vec(alloc)?;
    Ok(InOrder::from_sorted(flags))
}

// A digest has 32 bytes, by its type.
fn is_digest(digest: &[u8; 32])
    ensures { IsDigest digest.now }
{
    let _bytes = digest.as_slice();
}

// The release of the rows.
fn release(alloc: Global, rows: &[FlagState]) -> Result<Release, AllocError>
    requires { AreInOrder key_cmp row_key rows.now }
    ensures { IfOk result (λ release. release ≡ release_in rows.now) }
{
    let mut entries = Vec::with_capacity(alloc, rows.len())?;
    for row in rows {
        entries.push(row.entry.clone()?)?;
    }
    Ok(Release::from_sorted(entries))
}

// The overrides of one kind.
fn overrides(alloc: Global, rows: &[FlagState], who: Setter) -> Result<Overrides, AllocError>
    requires { AreInOrder key_cmp row_key rows.now }
    ensures { IfOk result (λ list. overrides_of list ≡ map_where key_cmp row_key rows.now (override_in who)) }
{
    let mut list = Vec::new(alloc);
    for row in rows {
        if let Some(value) = row.override_in(who) {
            list.push(Override {
                package: row.entry.package.clone()?,
                flag: row.entry.flag.clone()?,
                value,
            })?;
        }
    }
    Ok(InOrder::from_sorted(list))
}

// A row for each flag of a release, with the overrides that it had among other rows.
fn rows_of(alloc: Global, release: Release, old: &[FlagState]) -> Result<Vec<FlagState>, AllocError>
    requires { AreInOrder key_cmp row_key old.now }
    ensures { IfOk result (λ rows. rows.items ≡ map (carried_row old.now) (entries_of release)) }
{
    release
        .into_entries()
        .into_iter()
        .map(|entry| FlagState::carried(entry, old))
        .collect(alloc)
}

/// Where the flag of a change stands among rows in order, or why the change is refused. It takes no memory.
pub fn place_of_change(rows: &[FlagState], change: &Change<'_>) -> Result<usize, Refusal>
    requires { AreInOrder key_cmp row_key rows.now }
    ensures { IsChangeable rows.now change.now result }
{
    match change {
        Change::SetServer(key, _) | Change::SetLocal(key, _) => settable(
            rows,
            key.package(),
            key.flag(),
        ),
        Change::UnsetLocal(key) => unsettable(rows, key.package(), key.flag()),
    }
}

// Where a flag stands that has a local override, or why there is none to remove.
fn unsettable(rows: &[FlagState], package: &str, flag: &str) -> Result<usize, Refusal>
    requires { AreInOrder key_cmp row_key rows.now }
    ensures { IsUnsettable rows.now («package».now, flag.now) result }
{
    match place(rows, package, flag) {
        Ok(at) => {
            let row = &rows[at];
            match row.local {
                Some(_) => Ok(at),
                None => Err(Refusal::NoOverride),
            }
        }
        Err(_) => Err(Refusal::UnknownFlag),
    }
}

// Where a flag stands that may be overridden, or why it may not.
fn settable(rows: &[FlagState], package: &str, flag: &str) -> Result<usize, Refusal>
    requires { AreInOrder key_cmp row_key rows.now }
    ensures { IsSettable rows.now («package».now, flag.now) result }
{
    match place(rows, package, flag) {
        Ok(at) => {
            let row = &rows[at];
            match row.entry.kind {
                Kind::ReadWrite => Ok(at),
                Kind::ReadOnly | Kind::Fixed => Err(Refusal::ReadOnly),
            }
        }
        Err(_) => Err(Refusal::UnknownFlag),
    }
}
