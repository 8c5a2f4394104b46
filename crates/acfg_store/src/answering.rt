//! What a store does for a request.

ghost use Rattle.std.specs.Prelude.{◌≡◌, Err, IfErr, IfOk, IsTrue};
ghost use Rattle.acfg_device.specs.Disk.{IsSettled};
ghost use Rattle.acfg_device.specs.Left.{LeavesSince};
ghost use Rattle.acfg_device.specs.Only.{OnlyChanges, OnlyReads};
ghost use Rattle.acfg_model.specs.Step.{change_step};
ghost use Rattle.acfg_store.specs.Answered.{MakesStep, MeetsRequest};
ghost use Rattle.acfg_store.specs.Applied.{IsOfCall, IsOpen, IsQuiet, state_in};
ghost use Rattle.acfg_store.specs.Names.{IsOfDirectory};
ghost use Rattle.acfg_store.specs.Request.{IsAnswered, LeavesOnTheWay, TakesMemoryFirst};

use crate::loading::read_folder;
use crate::store::Store;
use crate::store_fault::StoreFault;
use acfg_base::{ContainerName, Name, PackageName, Text};
use acfg_device::Device;
use acfg_model::{Change, FlagKey, Reply, Request};
use std::alloc::Global;

impl Store {
    /// Answers a request by one step of the machine, and brings what it changes to the directory. The four files of an
    /// update's folder are read and checked first. A request that is refused, changes nothing or only reads makes no
    /// call that changes the device. A cut of power on the way leaves the old state, or what is persistent of the new
    /// one with each boot copy old or new.
    ///
    /// # Errors
    ///
    /// `Device` where the outside failed, and `OutOfMemory` where an allocation was refused: then nothing is written,
    /// but that `boot` may have made the boot copies of the first containers.
    pub fn apply<D: Device>(
        self,
        alloc: Global,
        device: &mut D,
        request: &Request,
    ) -> Result<(Store, Reply), StoreFault>
        requires { IsTrue D.tells → IsOpen (D.files device.old) self }
        ensures made { IfOk result (λ made. IsAnswered D.tells (D.files device.old) self request.now made.0 made.1) }
        ensures open { IsTrue D.tells → IfOk result (λ made. IsOpen (D.files device.new) made.0) }
        ensures changes { OnlyChanges D.Panel (IsOfDirectory self.dir) device.old device.new
            (result ≡ Err StoreFault.Device) }
        ensures quiet { IfOk result (λ made. IsQuiet made.1 → OnlyReads D.Panel device.old device.new ⊥) }
        ensures memory { TakesMemoryFirst request.now → result ≡ Err StoreFault.OutOfMemory
            → OnlyReads D.Panel device.old device.new ⊥ }
        ensures fault { IfErr result IsOfCall }
        ensures cut { IsTrue D.tells → IsSettled (D.account device.old).now
            → LeavesSince (D.account device.old) (D.account device.new)
            (LeavesOnTheWay (D.files device.old) (D.said device.old) self request.now) }
        ensures settled { IsTrue D.tells → IsSettled (D.account device.old).now
            → (result ≡ Err StoreFault.Device → ⊥) → IsSettled (D.account device.new).now }
    {
        self.answer(alloc, device, request)
    }

    // The same, with all clauses in one word.
    fn answer<D: Device>(
        self,
        alloc: Global,
        device: &mut D,
        request: &Request,
    ) -> Result<(Store, Reply), StoreFault>
        requires { IsTrue D.tells → IsOpen (D.files device.old) self }
        ensures { MeetsRequest D.Panel self request.now device.old device.new result }
    {
        match request {
            Request::Update { container, dir } => self.answer_update(alloc, device, container, dir),
            Request::Server {
                container,
                package,
                flag,
                value,
            } => self.answer_server(alloc, device, container, package, flag, *value),
            Request::Local {
                container,
                package,
                flag,
                value,
                now,
            } => self.answer_local(alloc, device, container, package, flag, *value, *now),
            Request::Unset {
                container,
                package,
                flag,
                now,
            } => self.answer_unset(alloc, device, container, package, flag, *now),
            Request::Boot => self.answer_boot(alloc, device),
            Request::Get {
                container,
                package,
                flag,
            } => match self.get(alloc, container.as_str(), package.as_str(), flag.as_str()) {
                Ok(reply) => Ok((self, reply)),
                Err(refused) => Err(StoreFault::from(refused)),
            },
        }
    }

    fn answer_update<D: Device>(
        self,
        alloc: Global,
        device: &mut D,
        container: &ContainerName,
        folder: &Text,
    ) -> Result<(Store, Reply), StoreFault>
        requires { IsTrue D.tells → IsOpen (D.files device.old) self }
        ensures { MeetsRequest D.Panel self (Request.Update container.now folder.now) device.old device.new result }
    {
        match read_folder(alloc, device, folder.as_str()) {
            Ok(set) => self.update(alloc, device, container, set),
            Err(fault) => Err(StoreFault::from(fault)),
        }
    }

    fn answer_server<D: Device>(
        self,
        alloc: Global,
        device: &mut D,
        container: &ContainerName,
        package: &PackageName,
        flag: &Name,
        value: bool,
    ) -> Result<(Store, Reply), StoreFault>
        requires { IsTrue D.tells → IsOpen (D.files device.old) self }
        ensures { MeetsRequest D.Panel self
            (Request.Server container.now «package».now flag.now value) device.old device.new result }
    {
        let key = FlagKey::new(package.as_str(), flag.as_str());
        let change = Change::SetServer(key, value);
        self.change(alloc, device, container.as_str(), &change, false)
    }

    fn answer_local<D: Device>(
        self,
        alloc: Global,
        device: &mut D,
        container: &ContainerName,
        package: &PackageName,
        flag: &Name,
        value: bool,
        now: bool,
    ) -> Result<(Store, Reply), StoreFault>
        requires { IsTrue D.tells → IsOpen (D.files device.old) self }
        ensures { MeetsRequest D.Panel self
            (Request.Local container.now «package».now flag.now value now) device.old device.new result }
    {
        let key = FlagKey::new(package.as_str(), flag.as_str());
        let change = Change::SetLocal(key, value);
        self.change(alloc, device, container.as_str(), &change, now)
    }

    fn answer_unset<D: Device>(
        self,
        alloc: Global,
        device: &mut D,
        container: &ContainerName,
        package: &PackageName,
        flag: &Name,
        now: bool,
    ) -> Result<(Store, Reply), StoreFault>
        requires { IsTrue D.tells → IsOpen (D.files device.old) self }
        ensures { MeetsRequest D.Panel self
            (Request.Unset container.now «package».now flag.now now) device.old device.new result }
    {
        let key = FlagKey::new(package.as_str(), flag.as_str());
        let change = Change::UnsetLocal(key);
        self.change(alloc, device, container.as_str(), &change, now)
    }

    // A change of the overrides, for now or for the next boot.
    fn change<D: Device>(
        self,
        alloc: Global,
        device: &mut D,
        name: &str,
        change: &Change<'_>,
        now: bool,
    ) -> Result<(Store, Reply), StoreFault>
        requires { IsTrue D.tells → IsOpen (D.files device.old) self }
        ensures { MakesStep D.Panel self (change_step now (state_in self) name.now change.now)
            device.old device.new result }
    {
        if now {
            self.apply_now(alloc, device, name, change)
        } else {
            self.apply_change(alloc, device, name, change)
        }
    }

    fn answer_boot<D: Device>(
        self,
        alloc: Global,
        device: &mut D,
    ) -> Result<(Store, Reply), StoreFault>
        requires { IsTrue D.tells → IsOpen (D.files device.old) self }
        ensures { MeetsRequest D.Panel self Request.Boot device.old device.new result }
    {
        self.boot(alloc, device)
    }
}
