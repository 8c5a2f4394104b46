//! What files declare and set, as they have it, each text with its place.

ghost use Rattle.std.specs.Prelude.{◌≡◌, MatchOption, None, Some};

use crate::flags::Purpose;
use acfg_base::{Sequence, Text};
use std::marker::Model;

/// A text of a file, and the byte place of its first token, from 0.
#[derive(Debug, Drop)]
pub struct Placed {
    pub place: usize,
    pub text: Text,
}

/// A declared flag, as its file has it: its names are not tested yet.
#[derive(Debug, Drop)]
pub struct DeclaredFlag {
    /// The place of the message's opening bracket.
    pub place: usize,
    pub name: Placed,
    pub namespace: Placed,
    pub description: Placed,
    pub bugs: Sequence<Text>,
    pub fixed: bool,
    pub exported: bool,
    /// None where the flag has no metadata.
    pub purpose: Option<Purpose>,
}

/// What a declarations file has.
#[derive(Debug, Drop)]
pub struct DeclarationsFile {
    /// The file's name, as it was given: the source of its flags' first points.
    pub source: Text,
    pub package: Placed,
    pub container: Option<Placed>,
    /// In the order of the file.
    pub flags: Sequence<DeclaredFlag>,
    /// The length of the file in bytes.
    pub end: usize,
}

/// A value that a build sets for a flag.
#[derive(Debug, Drop)]
pub struct FlagValue {
    /// The place of the message's opening bracket.
    pub place: usize,
    pub package: Placed,
    pub name: Placed,
    /// Whether the state is ENABLED.
    pub enabled: bool,
    /// Whether the permission is READ_WRITE.
    pub writable: bool,
}

/// What a values file has.
#[derive(Debug, Drop)]
pub struct ValuesFile {
    /// The file's name, as it was given: the source of its values' points.
    pub source: Text,
    /// In the order of the file.
    pub values: Sequence<FlagValue>,
}

/// The declarations of one file. Contracts see what the file has.
#[derive(Debug, Drop)]
pub struct Declarations {
    file: DeclarationsFile,
}

impl Model for Declarations {
    ghost use Rattle.acfg_decls.specs.declared.declared.DeclarationsFile.{DeclarationsFile};

    ghost Value = { DeclarationsFile };

    ghost view = { λ declarations. declarations.file };
}

impl Declarations {
    pub fn new(file: DeclarationsFile) -> Declarations
        ensures { result ≡ file }
    {
        Declarations { file }
    }

    /// What the file has.
    pub fn file(&self) -> &DeclarationsFile
        ensures { result.now ≡ self.now }
    {
        &self.file
    }

    /// The container that the file names, where it names one.
    pub fn container(&self) -> Option<&str>
        ensures { MatchOption result (self.now.container ≡ None)
            (λ text. (named : Placed) × (self.now.container ≡ Some named) × (text.now ≡ named.text)) }
    {
        match &self.file.container {
            Some(named) => Some(named.text.as_str()),
            None => None,
        }
    }

    /// The package that the file names.
    pub fn package(&self) -> &str
        ensures { result.now ≡ self.now.package.text }
    {
        self.file.package.text.as_str()
    }
}

/// The values of one file. Contracts see what the file has.
#[derive(Debug, Drop)]
pub struct Values {
    file: ValuesFile,
}

impl Model for Values {
    ghost use Rattle.acfg_decls.specs.declared.declared.ValuesFile.{ValuesFile};

    ghost Value = { ValuesFile };

    ghost view = { λ values. values.file };
}

impl Values {
    pub fn new(file: ValuesFile) -> Values
        ensures { result ≡ file }
    {
        Values { file }
    }

    /// What the file has.
    pub fn file(&self) -> &ValuesFile
        ensures { result.now ≡ self.now }
    {
        &self.file
    }
}
