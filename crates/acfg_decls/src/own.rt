//! A declarations file compiled by itself.

ghost use Rattle.std.specs.Prelude.{◌≡◌, IfOk, IfErr};
ghost use Rattle.acfg_decls.specs.Compile.{CompilesOwn, FailsOwn, IfIn, container_read};

use crate::compiling::compile;
use crate::declared::Declarations;
use crate::faults::{CompileFault, DeclWhat};
use crate::flags::Flags;
use acfg_base::{ContainerName, PackageName, is_container};
use std::alloc::Global;
use std::slice;

/// The container that a declarations file names: `system_ext` is read as `system`.
pub fn read_container(container: &str) -> &str
    ensures { result.now ≡ container_read container.now }
{
    if container == "system_ext" {
        "system"
    } else {
        container
    }
}

/// Compiles one declarations file with the package and the container that it names itself, and without values.
///
/// # Errors
/// `MissingField` at the file's length where it names no container, else the first fault of compiling.
pub fn compile_own(alloc: Global, declarations: &Declarations) -> Result<Flags, CompileFault>
    ensures ok { IfOk result (CompilesOwn declarations.now) }
    ensures err { IfErr result (λ fault. IfIn fault (FailsOwn declarations.now)) }
{
    let file = declarations.file();
    let Some(named) = &file.container else {
        return Err(CompileFault::In(0, file.end, DeclWhat::MissingField));
    };
    let Some(package) = PackageName::parse(alloc, file.package.text.as_str())? else {
        return Err(CompileFault::In(0, file.package.place, DeclWhat::BadName));
    };
    if !is_container(named.text.as_str().as_bytes()) {
        return Err(CompileFault::In(0, named.place, DeclWhat::BadName));
    }
    let Some(container) = ContainerName::parse(alloc, read_container(named.text.as_str()))? else {
        unreachable!()
    };
    compile(
        alloc,
        &package,
        &container,
        slice::from_ref(declarations),
        &[],
    )
}
