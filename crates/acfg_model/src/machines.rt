//! The machine: its containers in order of their names, and what a request does to them.

ghost use Rattle.std.specs.Prelude.{◌≡◌, ◌<◌, ◌^◌, None, IfOk, OnErr, map};
ghost use Rattle.std.specs.Option.{ForSome};
ghost use Rattle.std.specs.FinMap.{empty, get, len};
ghost use Rattle.acfg_base.specs.Places.{AreInOrder};
ghost use Rattle.acfg_model.specs.State.{IsValid, name_cmp};
ghost use Rattle.acfg_model.specs.Step.{IsLoadedFor, IsRefused, Fits, booted_value, boot_map, change_step, get_reply};
ghost use Rattle.acfg_model.specs.Step.{release_step, step, update_step};
ghost use Rattle.acfg_model.specs.Views.{boot_of, state_from};
ghost use Rattle.acfg_model.specs.Machines.{kept_name, state_of, booted_named, reply_of};

use crate::changes::{Change, FlagKey};
use crate::containers::Container;
use crate::names::{ContainerRow, place_of};
use crate::refusals::Refusal;
use crate::requests::{Loaded, Reply, Request};
use crate::views::{BootCopy, State};
use acfg_base::{ContainerName, InOrder, OutOfMemory, Release};
use std::alloc::{AllocError, Global};
use std::marker::Model;

// How many containers a device has at most.
const MOST_CONTAINERS: usize = 256;

/// A container and its name.
#[derive(Debug, Drop)]
pub struct NamedContainer {
    pub name: ContainerName,
    pub container: Container,
}

/// The plain machine. Contracts see a finite map from names to containers, which is always valid.
#[derive(Debug, Drop)]
pub struct Machine {
    containers: Vec<NamedContainer>,
}

impl ContainerRow for NamedContainer {
    ghost use Rattle.acfg_model.specs.Machines.{kept_name};

    ghost name_key = { kept_name };

    fn name(&self) -> &str {
        self.name.as_str()
    }
}

impl Model for Machine {
    ghost use Rattle.acfg_model.specs.Codes.{state_code};
    ghost use Rattle.acfg_model.specs.State.{State};
    ghost use Rattle.acfg_model.specs.Machines.{state_of, IsKept};

    ghost Value = { State };

    ghost coded = { state_code };

    ghost view = { λ machine. state_of machine.containers.items };

    ghost invariant = { λ machine. IsKept machine.containers.items };
}

impl Machine {
    /// A machine without containers, which keeps the allocator. It takes no memory.
    pub fn new(alloc: Global) -> Machine
        ensures { result ≡ empty }
    {
        Machine {
            containers: Vec::new(alloc),
        }
    }

    /// The value of a flag in the boot copy of a container, where there are all three. It takes no memory.
    pub fn boot_value(&self, container: &str, package: &str, flag: &str) -> Option<bool>
        ensures value { result ≡ booted_value self.now container.now («package».now, flag.now) }
        ensures valid { IsValid self.now }
    {
        match place_of(&self.containers, container) {
            Ok(at) => {
                let named = &self.containers[at];
                match named.container.boot_value(package, flag) {
                    Ok(value) => value,
                    Err(_) => None,
                }
            }
            Err(_) => None,
        }
    }

    /// The state, as lists in order.
    pub fn view(&self, alloc: Global) -> Result<State, OutOfMemory>
        ensures state { IfOk result (λ state. state_from state ≡ self.now) }
        ensures valid { IsValid self.now }
    {
        Ok(shown(alloc, &self.containers)?)
    }

    fn change(&mut self, name: &str, change: &Change<'_>, now: bool) -> Reply
        ensures { change_step now self.old name.now change.now ≡ (self.new, result) }
    {
        match place_of(&self.containers, name) {
            Ok(at) => {
                let named = &mut self.containers[at];
                reply(named.container.change_for(change, now))
            }
            Err(_) => Reply::Refused(Refusal::UnknownContainer.number()),
        }
    }

    fn get(&self, name: &str, package: &str, flag: &str) -> Reply
        ensures { result ≡ get_reply self.now name.now («package».now, flag.now) }
    {
        match place_of(&self.containers, name) {
            Ok(at) => {
                let named = &self.containers[at];
                match named.container.boot_value(package, flag) {
                    Ok(value) => Reply::Value(value),
                    Err(refusal) => Reply::Refused(refusal.number()),
                }
            }
            Err(_) => Reply::Refused(Refusal::UnknownContainer.number()),
        }
    }

    fn boot(&mut self, alloc: Global) -> Result<Reply, AllocError>
        ensures ok { IfOk result (λ reply. step self.old Request.Boot None ≡ (self.new, reply)) }
        ensures err { OnErr result (self.new ≡ self.old) }
    {
        let copies = boot_copies(alloc, &self.containers)?;
        set_boot_copies(&mut self.containers, copies);
        Ok(Reply::Fine)
    }

    fn update(
        &mut self,
        alloc: Global,
        name: &ContainerName,
        loaded: Option<Loaded>,
    ) -> Result<Reply, AllocError>
        requires { ForSome loaded Fits }
        ensures ok { IfOk result (λ reply. update_step self.old name.now loaded ≡ (self.new, reply)) }
        ensures err { OnErr result (self.new ≡ self.old) }
    {
        match loaded {
            Some(Loaded::Release(digest, release)) => self.update_release(
                alloc, name, digest, release,
            ),
            Some(Loaded::Bad) => Ok(Reply::Refused(Refusal::BadImage.number())),
            Some(Loaded::Disagree) => Ok(Reply::Refused(Refusal::FilesDisagree.number())),
            Some(Loaded::Missing) | None => Ok(Reply::Refused(Refusal::MissingFile.number())),
        }
    }

    fn update_release(
        &mut self,
        alloc: Global,
        name: &ContainerName,
        digest: [u8; 32],
        release: Release,
    ) -> Result<Reply, AllocError>
        requires { len release < 2 ^ 32 }
        ensures ok { let kept = get self.old name.now in
            IfOk result (λ reply. release_step self.old name.now digest release kept ≡ (self.new, reply)) }
        ensures err { OnErr result (self.new ≡ self.old) }
    {
        let count = release.len() as u32;
        match place_of(&self.containers, name.as_str()) {
            Ok(at) => {
                let named = &mut self.containers[at];
                if named.container.digest() == digest {
                    return Ok(Reply::Unchanged);
                }
                named.container.set_release(alloc, digest, release)?;
                Ok(Reply::Updated(digest, count))
            }
            Err(at) => {
                if self.containers.as_slice().len() >= MOST_CONTAINERS {
                    return Ok(Reply::Refused(Refusal::TooManyContainers.number()));
                }
                let container = Container::new(alloc, digest, release)?;
                let name = name.clone()?;
                self.containers
                    .insert(at, NamedContainer { name, container })?;
                Ok(Reply::Updated(digest, count))
            }
        }
    }

    fn answer(
        &mut self,
        alloc: Global,
        request: &Request,
        loaded: Option<Loaded>,
    ) -> Result<Reply, AllocError>
        requires { IsLoadedFor request.now loaded }
        ensures ok { IfOk result (λ reply. step self.old request.now loaded ≡ (self.new, reply)) }
        ensures err { OnErr result (self.new ≡ self.old) }
    {
        match request {
            Request::Update { container, .. } => self.update(alloc, container, loaded),
            Request::Server {
                container,
                package,
                flag,
                value,
            } => {
                let change = Change::SetServer(
                    FlagKey::new(package.as_str(), flag.as_str()),
                    *value,
                );
                Ok(self.change(container.as_str(), &change, false))
            }
            Request::Local {
                container,
                package,
                flag,
                value,
                now,
            } => {
                let change = Change::SetLocal(
                    FlagKey::new(package.as_str(), flag.as_str()),
                    *value,
                );
                Ok(self.change(container.as_str(), &change, *now))
            }
            Request::Unset {
                container,
                package,
                flag,
                now,
            } => {
                let change = Change::UnsetLocal(FlagKey::new(package.as_str(), flag.as_str()));
                Ok(self.change(container.as_str(), &change, *now))
            }
            Request::Boot => self.boot(alloc),
            Request::Get {
                container,
                package,
                flag,
            } => Ok(self.get(container.as_str(), package.as_str(), flag.as_str())),
        }
    }

    /// One step of the machine. An update comes with what was loaded for it, of at most 4,294,967,295 flags, and
    /// nothing else comes with anything. A refusal of memory changes nothing.
    pub fn step(
        &mut self,
        alloc: Global,
        request: &Request,
        loaded: Option<Loaded>,
    ) -> Result<Reply, OutOfMemory>
        requires { IsLoadedFor request.now loaded }
        ensures ok { IfOk result (λ reply. step self.old request.now loaded ≡ (self.new, reply)) }
        ensures refused { IfOk result (λ reply. IsRefused reply → self.new ≡ self.old) }
        ensures err { OnErr result (self.new ≡ self.old) }
        ensures valid { IsValid self.new }
    {
        let outcome = self.answer(alloc, request, loaded);
        let _ = &self.containers;
        match outcome {
            Ok(reply) => Ok(reply),
            Err(refused) => Err(refused.into()),
        }
    }
}

// The state of containers in order.
fn shown(alloc: Global, containers: &[NamedContainer]) -> Result<State, AllocError>
    requires { AreInOrder name_cmp kept_name containers.now }
    ensures { IfOk result (λ state. state_from state ≡ state_of containers.now) }
{
    let mut states = Vec::with_capacity(alloc, containers.len())?;
    for named in containers {
        states.push(named.container.shown(alloc, &named.name)?)?;
    }
    Ok(InOrder::from_sorted(states))
}

// The boot copies that a boot would make, one for each container.
fn boot_copies(alloc: Global, containers: &[NamedContainer]) -> Result<Vec<BootCopy>, AllocError>
    ensures { IfOk result (λ copies. map boot_of copies.items
        ≡ map (λ named. boot_map named.container) containers.now) }
{
    let mut copies = Vec::with_capacity(alloc, containers.len())?;
    for named in containers {
        copies.push(named.container.boot_copy(alloc)?)?;
    }
    Ok(copies)
}

// Gives each container the boot copy that was made for it, from the last one back.
fn set_boot_copies(containers: &mut Vec<NamedContainer>, mut copies: Vec<BootCopy>)
    requires { map boot_of copies.items ≡ map (λ named. boot_map named.container) containers.old.items }
    ensures { containers.new.items ≡ map booted_named containers.old.items }
{
    while let Some(copy) = copies.pop() {
        let named = &mut containers[copies.len()];
        named.container.set_boot(copy);
    }
}

// The reply to a change of one container.
fn reply(outcome: Result<(), Refusal>) -> Reply
    ensures { result ≡ reply_of outcome }
{
    match outcome {
        Ok(()) => Reply::Fine,
        Err(refusal) => Reply::Refused(refusal.number()),
    }
}
