//! A device directory, opened.

ghost use Rattle.std.specs.Prelude.{◌≡◌, [], Err, IfErr, IfOk, IsSome, IsTrue, Some, string_bytes};
ghost use Rattle.acfg_device.specs.Disk.{IsSettled, MayLeave};
ghost use Rattle.acfg_device.specs.Left.{LeavesSince};
ghost use Rattle.acfg_device.specs.Only.{OnlyReads, OnlySyncs};
ghost use Rattle.acfg_model.specs.Views.{state_from};
ghost use Rattle.acfg_store.specs.declared.names.Part.TheVariants as part;
ghost use Rattle.acfg_store.specs.Commits.{IsLayout};
ghost use Rattle.acfg_store.specs.Names.{path};
ghost use Rattle.acfg_store.specs.Opening.{AreKept, all_sets_of, entries_of};
ghost use Rattle.acfg_store.specs.Sets.{AreSetsOfAll};
ghost use Rattle.acfg_store.specs.Stands.{Stands, state_of};
ghost use Rattle.acfg_store.specs.Store.{IsDurable, OnAnswer, TellsDamage};

use crate::containers::Kept;
use crate::gathering::read_part;
use crate::names::{Part, file_name};
use crate::opening::open_all;
use crate::records::read_records;
use crate::store_fault::StoreFault;
use acfg_base::{InOrder, OutOfMemory};
use acfg_commit::settle;
use acfg_device::{Device, Panel};
use acfg_model::State;
use std::alloc::{AllocError, Global};
use std::marker::Model;

/// A device directory that was opened. Contracts see its name, how its containers lie there, and the files of their
/// releases and boot copies, which the store keeps.
#[derive(Debug, Drop)]
pub struct Store {
    pub(crate) dir: String,
    pub(crate) containers: Vec<Kept>,
}

impl Model for Store {
    ghost use Rattle.std.specs.Prelude.{string_bytes};
    ghost use Rattle.acfg_store.specs.Codes.{store_code};
    ghost use Rattle.acfg_store.specs.Opening.{AreKept, all_sets_of, entries_of};
    ghost use Rattle.acfg_store.specs.Store.{StoreView};

    ghost Value = { StoreView };

    ghost coded = { store_code };

    ghost view = { λ store. record {
      dir = string_bytes store.dir;
      entries = entries_of store.containers.items;
      sets = all_sets_of store.containers.items;
    } };

    ghost invariant = { λ store. AreKept store.containers.items };
}

impl Store {
    /// Opens a directory. The answer is `Ok` exactly where its files stand for a state, failures of the outside and
    /// want of memory aside, and that state is the store's. The files that the store keeps are those that stand in the
    /// containers' named slots.
    ///
    /// Where there is a list of containers, it is synced, and then the names, before anything is answered: so what is
    /// answered from here on is durable, also where a process was killed before and is run again.
    ///
    /// # Errors
    ///
    /// `Damaged` with the name of the first file at fault, exactly where the files stand for no state. `Device` where
    /// the outside failed, and `OutOfMemory` where an allocation was refused.
    pub fn open<D: Device>(alloc: Global, device: &mut D, dir: &str) -> Result<Store, StoreFault>
        ensures dir { IfOk result (λ store. store.dir ≡ dir.now) }
        ensures lies { IsTrue D.tells → IfOk result (λ store. IsLayout (D.files device.old) dir.now store.entries) }
        ensures stands { IsTrue D.tells → IfOk result
            (λ store. Stands (D.files device.old) dir.now (state_of store.entries)) }
        ensures kept { IsTrue D.tells → IfOk result
            (λ store. AreSetsOfAll (D.files device.old) dir.now store.entries store.sets) }
        ensures damaged { IsTrue D.tells → IfErr result (TellsDamage (D.files device.old) dir.now) }
        ensures syncs { OnlySyncs D.Panel device.old device.new (result ≡ Err StoreFault.Device) }

        // A cut at any moment leaves what one at the start might have left.
        ensures cut { IsTrue D.tells → LeavesSince (D.account device.old) (D.account device.new)
            (MayLeave (D.account device.old).now) }
        ensures settled { IsTrue D.tells → IsSettled (D.account device.old).now → IsSettled (D.account device.new).now }
        ensures durable { IsTrue D.tells → IsSome (D.files device.old (path dir.now [] part.Records))
            → OnAnswer result (IsDurable (D.account device.new).now (path dir.now [] part.Records)) }
    {
        let found = match read_part(alloc, device, dir, "", Part::Records) {
            Ok(found) => found,
            Err(fault) => return Err(StoreFault::from(fault)),
        };
        match found {
            None => Ok(Store::new(alloc, dir, Vec::new(alloc))?),
            Some(bytes) => Store::open_listed(alloc, device, dir, &bytes),
        }
    }

    // The store of a directory with a list of containers, which is settled first.
    fn open_listed<D: Device>(
        alloc: Global,
        device: &mut D,
        dir: &str,
        bytes: &[u8],
    ) -> Result<Store, StoreFault>
        requires { IsTrue D.tells → D.files device.old (path dir.now [] part.Records) ≡ Some bytes.now }
        ensures dir { IfOk result (λ store. store.dir ≡ dir.now) }
        ensures lies { IsTrue D.tells → IfOk result (λ store. IsLayout (D.files device.old) dir.now store.entries) }
        ensures kept { IsTrue D.tells → IfOk result
            (λ store. AreSetsOfAll (D.files device.old) dir.now store.entries store.sets) }
        ensures damaged { IsTrue D.tells → IfErr result (TellsDamage (D.files device.old) dir.now) }
        ensures syncs { OnlySyncs D.Panel device.old device.new (result ≡ Err StoreFault.Device) }
        ensures cut { IsTrue D.tells → LeavesSince (D.account device.old) (D.account device.new)
            (MayLeave (D.account device.old).now) }
        ensures settled { IsTrue D.tells → IsSettled (D.account device.old).now → IsSettled (D.account device.new).now }
        ensures durable { IsTrue D.tells
            → OnAnswer result (IsDurable (D.account device.new).now (path dir.now [] part.Records)) }
    {
        let name = file_name(alloc, dir, "", Part::Records)?;
        settle(device, name.as_str())?;
        Store::read_listed(alloc, device, dir, name, bytes)
    }

    // The store of a directory with this list of containers.
    fn read_listed<P: Panel>(
        alloc: Global,
        panel: &mut P,
        dir: &str,
        name: String,
        bytes: &[u8],
    ) -> Result<Store, StoreFault>
        requires name { string_bytes name ≡ path dir.now [] part.Records }
        requires there { IsTrue P.tells → P.files panel.old (path dir.now [] part.Records) ≡ Some bytes.now }
        ensures dir { IfOk result (λ store. store.dir ≡ dir.now) }
        ensures lies { IsTrue P.tells → IfOk result (λ store. IsLayout (P.files panel.old) dir.now store.entries) }
        ensures kept { IsTrue P.tells → IfOk result
            (λ store. AreSetsOfAll (P.files panel.old) dir.now store.entries store.sets) }
        ensures damaged { IsTrue P.tells → IfErr result (TellsDamage (P.files panel.old) dir.now) }
        ensures reads { OnlyReads P.Panel panel.old panel.new (result ≡ Err StoreFault.Device) }
    {
        let found = read_records(alloc, bytes)?;
        match found {
            None => Err(StoreFault::Damaged(name)),
            Some(rows) => match open_all(alloc, panel, dir, rows.as_slice()) {
                Ok(containers) => Ok(Store::new(alloc, dir, containers)?),
                Err(fault) => Err(fault),
            },
        }
    }

    // The store of these containers.
    fn new(alloc: Global, dir: &str, containers: Vec<Kept>) -> Result<Store, AllocError>
        requires { AreKept containers.items }
        ensures dir { IfOk result (λ store. store.dir ≡ dir.now) }
        ensures entries { IfOk result (λ store. store.entries ≡ entries_of containers.items) }
        ensures sets { IfOk result (λ store. store.sets ≡ all_sets_of containers.items) }
    {
        let dir = String::from_str(alloc, dir)?;
        Ok(Store { dir, containers })
    }

    /// The state that the directory stands for, as lists in order.
    ///
    /// # Errors
    ///
    /// An allocation was refused.
    pub fn view(&self, alloc: Global) -> Result<State, OutOfMemory>
        ensures { IfOk result (λ state. state_from state ≡ state_of self.now.entries) }
    {
        Ok(shown(alloc, &self.containers)?)
    }
}

// The state of containers in order.
fn shown(alloc: Global, containers: &[Kept]) -> Result<State, AllocError>
    requires { AreKept containers.now }
    ensures { IfOk result (λ state. state_from state ≡ state_of (entries_of containers.now)) }
{
    let mut states = Vec::with_capacity(alloc, containers.len())?;
    for kept in containers {
        states.push(kept.container.shown(alloc, &kept.name)?)?;
    }
    Ok(InOrder::from_sorted(states))
}
