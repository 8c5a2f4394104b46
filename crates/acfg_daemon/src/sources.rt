//! What an update loads: the flags of a declarations file.

ghost use Rattle.std.specs.Prelude.{◌≡◌, IfErr, IfOk, IsTrue, string_bytes};
ghost use Rattle.sha2.specs.Sha256.{sha256};
ghost use Rattle.acfg_decls.specs.Reading.{Declares};
ghost use Rattle.acfg_device.specs.Only.{OnlyReads};
ghost use Rattle.acfg_model.specs.Step.{Fits, IsLoadedFor};
ghost use Rattle.acfg_daemon.specs.Replayed.{IsNoDamage};
ghost use Rattle.acfg_daemon.specs.Sources.{BytesLoad, FileLoads, Loads, source_path};

use crate::fault::DaemonFault;
use acfg_base::{ContainerName, OutOfMemory, PackageName};
use acfg_decls::{
    CompileFault, DeclFault, DeclWhat, Declarations, compile, one_compiling, read_declarations,
};
use acfg_device::Panel;
use acfg_model::{Loaded, Request};
use sha2::{Digest, Sha256};
use std::alloc::{AllocError, Global};
use std::slice;

/// What is loaded for a request: the declarations file of an update's directory, and nothing for another request.
pub fn load<P: Panel>(
    alloc: Global,
    panel: &mut P,
    request: &Request,
) -> Result<Option<Loaded>, DaemonFault>
    ensures told { IsTrue P.tells → IfOk result (Loads (P.files panel.old) request.now) }
    ensures fits { IfOk result (IsLoadedFor request.now) }
    ensures reads { OnlyReads P.Panel panel.old panel.new (result ≡ Err DaemonFault.Device) }
    ensures fault { IfErr result IsNoDamage }
{
    match request {
        Request::Update { container, dir } => {
            let loaded = load_directory(alloc, panel, container, dir.as_str())?;
            Ok(Some(loaded))
        }
        _ => Ok(None),
    }
}

fn load_directory<P: Panel>(
    alloc: Global,
    panel: &mut P,
    container: &ContainerName,
    dir: &str,
) -> Result<Loaded, DaemonFault>
    ensures told { IsTrue P.tells → IfOk result
        (FileLoads container.now (source_path dir.now) (P.files panel.old (source_path dir.now))) }
    ensures fits { IfOk result Fits }
    ensures reads { OnlyReads P.Panel panel.old panel.new (result ≡ Err DaemonFault.Device) }
    ensures fault { IfErr result IsNoDamage }
{
    let path = path_in(alloc, dir)?;
    match panel.read(alloc, path.as_str())? {
        None => Ok(Loaded::Missing),
        Some(bytes) => Ok(load_bytes(alloc, container, path.as_str(), &bytes)?),
    }
}

fn path_in(alloc: Global, dir: &str) -> Result<String, AllocError>
    ensures { IfOk result (λ path. string_bytes path ≡ source_path dir.now) }
{
    format!(in alloc; "{dir}/flags.aconfig")
}

// What the bytes at a path load as for a container.
fn load_bytes(
    alloc: Global,
    container: &ContainerName,
    path: &str,
    bytes: &[u8],
) -> Result<Loaded, OutOfMemory>
    ensures loaded { IfOk result (BytesLoad container.now path.now bytes.now) }
    ensures fits { IfOk result Fits }
{
    match read_declarations(alloc, path, bytes) {
        Ok(declarations) => load_declared(alloc, container, path, bytes, &declarations),
        Err(DeclFault::At(_, _)) => Ok(Loaded::Bad),
        Err(DeclFault::OutOfMemory) => Err(OutOfMemory),
    }
}

// What declarations load as for a container.
fn load_declared(
    alloc: Global,
    container: &ContainerName,
    path: &str,
    bytes: &[u8],
    declarations: &Declarations,
) -> Result<Loaded, OutOfMemory>
    requires { Declares path.now bytes.now declarations.now }
    ensures loaded { IfOk result (BytesLoad container.now path.now bytes.now) }
    ensures fits { IfOk result Fits }
{
    one_compiling();
    let Some(package) = PackageName::parse(alloc, declarations.package())? else {
        return Ok(Loaded::Bad);
    };
    match compile(
        alloc,
        &package,
        container,
        slice::from_ref(declarations),
        &[],
    ) {
        Ok(flags) => {
            let release = flags.release(alloc)?;
            Ok(Loaded::Release(Sha256::digest(bytes), release))
        }
        Err(CompileFault::In(_, _, DeclWhat::WrongContainer)) => Ok(Loaded::Disagree),
        Err(CompileFault::In(_, _, _)) => Ok(Loaded::Bad),
        Err(CompileFault::OutOfMemory) => Err(OutOfMemory),
    }
}
