//! Lawful names that own their text. Contracts see each as the list of its bytes.

ghost use Rattle.std.specs.Prelude.{◌≡◌, ◌↔◌, List, ℕ, IfOk, IsTrue};
ghost use Rattle.std.specs.Option.{SomeIff};

use crate::memory::OutOfMemory;
use crate::names::{is_container, is_name, is_package};
use crate::text::Text;
use std::alloc::{AllocError, Global};
use std::marker::{Model, PhantomData};

/// A rule that texts meet.
pub trait Rule {
    /// The texts that meet it.
    ghost IsLawful: { List ℕ → Type 0 };

    /// Whether a text meets it.
    fn admits(text: &[u8]) -> bool
        ensures { IsTrue result ↔ IsLawful text.now };
}

/// A text that meets a rule, and owns its bytes.
#[derive(Debug, Drop)]
pub struct Lawful<R: Rule> {
    text: Text,
    rule: PhantomData<R>,
}

impl<R: Rule> Model for Lawful<R> {
    ghost use Rattle.std.specs.Prelude.{List, ℕ};

    ghost Value = { List ℕ };

    ghost view = { λ name. name.text };

    ghost invariant = { λ name. R.IsLawful name.text };
}

impl<R: Rule> Lawful<R> {
    /// The name that a text is, where it is one.
    pub fn parse(alloc: Global, text: &str) -> Result<Option<Lawful<R>>, OutOfMemory>
        ensures { IfOk result (λ name. SomeIff name (R.IsLawful text.now) text.now) }
    {
        if !R::admits(text.as_bytes()) {
            return Ok(None);
        }
        let text = Text::copy(alloc, text)?;
        Ok(Some(Lawful {
            text,
            rule: PhantomData,
        }))
    }

    /// The text of the name.
    pub fn as_str(&self) -> &str
        ensures text { result.now ≡ self.now }
        ensures lawful { R.IsLawful self.now }
    {
        self.text.as_str()
    }
}

impl<R: Rule> Clone for Lawful<R> {
    ghost is_clone = { λ name copy. copy ≡ name };

    fn clone(&self) -> Result<Lawful<R>, AllocError> {
        let text = self.text.clone()?;
        Ok(Lawful {
            text,
            rule: PhantomData,
        })
    }
}

/// The rule of names of flags and namespaces.
#[derive(Clone, Copy, Debug)]
pub struct NameRule;

impl Rule for NameRule {
    ghost use Rattle.acfg_base.specs.Names.{IsName};

    ghost IsLawful = { IsName };

    fn admits(text: &[u8]) -> bool {
        is_name(text)
    }
}

/// The rule of names of packages.
#[derive(Clone, Copy, Debug)]
pub struct PackageRule;

impl Rule for PackageRule {
    ghost use Rattle.acfg_base.specs.Names.{IsPackage};

    ghost IsLawful = { IsPackage };

    fn admits(text: &[u8]) -> bool {
        is_package(text)
    }
}

/// The rule of names of containers.
#[derive(Clone, Copy, Debug)]
pub struct ContainerRule;

impl Rule for ContainerRule {
    ghost use Rattle.acfg_base.specs.Names.{IsContainer};

    ghost IsLawful = { IsContainer };

    fn admits(text: &[u8]) -> bool {
        is_container(text)
    }
}

/// The name of a flag or of a namespace, as AOSP aconfig has them: `[a-z][a-z0-9_]*` without `__`, of at most 255
/// bytes.
pub type Name = Lawful<NameRule>;

/// The name of a package: two or more names joined by `.`, of at most 255 bytes.
pub type PackageName = Lawful<PackageRule>;

/// The name of a container: one or more names joined by `.`, of at most 100 bytes.
pub type ContainerName = Lawful<ContainerRule>;
