//! Changes of a container's overrides.

ghost use Rattle.std.specs.Prelude.{◌≡◌};
ghost use Rattle.acfg_model.specs.Step.{changed_key};

use std::marker::Model;

/// What names a flag of a container: its package and its own name.
#[derive(Debug, Drop)]
pub struct FlagKey<'a> {
    package: &'a str,
    flag: &'a str,
}

impl<'a> Model for FlagKey<'a> {
    ghost use Rattle.acfg_base.specs.Release.{Key};
    ghost use Rattle.acfg_base.specs.Codes.{key_code};

    ghost Value = { Key };

    ghost coded = { key_code };

    ghost view = { λ key. (key.package.now, key.flag.now) };
}

impl<'a> FlagKey<'a> {
    pub fn new(package: &'a str, flag: &'a str) -> FlagKey<'a>
        ensures { result ≡ («package».now, flag.now) }
    {
        FlagKey { package, flag }
    }

    pub fn package(&self) -> &str
        ensures { result.now ≡ self.now.0 }
    {
        self.package
    }

    pub fn flag(&self) -> &str
        ensures { result.now ≡ self.now.1 }
    {
        self.flag
    }
}

/// A change of a container's overrides.
#[derive(Debug, Drop)]
pub enum Change<'a> {
    SetServer(FlagKey<'a>, bool),
    SetLocal(FlagKey<'a>, bool),
    UnsetLocal(FlagKey<'a>),
}

impl<'a> Change<'a> {
    /// The flag that the change is of.
    pub fn key(&self) -> &FlagKey<'a>
        ensures { result.now ≡ changed_key self.now }
    {
        match self {
            Change::SetServer(key, _) | Change::SetLocal(key, _) | Change::UnsetLocal(key) => key,
        }
    }
}
