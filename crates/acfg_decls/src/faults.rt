//! Why declarations and values are refused.

use acfg_base::OutOfMemory;
use acfg_text::{TextFault, TextWhat};
use std::alloc::{AllocError, AllocFailed};

/// What is wrong with a file of declarations or values.
#[derive(Clone, Copy, Debug, PartialEq, Eq)]
pub enum DeclWhat {
    /// A fault of the text itself.
    Text(TextWhat),
    /// A message has no field of this name.
    UnknownField,
    /// A field that stands once stood before in its message, or is given as a list.
    TwiceGiven,
    /// A value is of another form than its field's.
    BadScalar,
    /// A message lacks a field that it has to have, or no container is named where one has to be.
    MissingField,
    /// A package, container, flag or namespace isn't a lawful name.
    BadName,
    /// A flag's description is empty.
    EmptyDescription,
    /// A flag has this number of bugs, and not one.
    BugCount(u64),
    /// The file is of another package than the one asked for.
    WrongPackage,
    /// The file is of another container than the one asked for.
    WrongContainer,
    /// A flag of this name was declared before.
    Declared,
    /// The flag is the 65,536th.
    TooMany,
    /// A value makes a fixed flag READ_WRITE.
    FixedFlag,
}

/// Why a file wasn't read.
#[derive(Clone, Copy, Debug, PartialEq, Eq)]
pub enum DeclFault {
    /// The byte place of the first fault, from 0, and what is wrong.
    At(usize, DeclWhat),
    /// Memory was refused.
    OutOfMemory,
}

impl DeclFault {
    ghost use Rattle.std.specs.Prelude.{◌≡◌};
    ghost use Rattle.acfg_decls.specs.Compile.{in_file};

    /// The fault in the file of this position.
    pub fn in_file(self, number: usize) -> CompileFault
        ensures { result ≡ in_file number self }
    {
        match self {
            DeclFault::At(place, what) => CompileFault::In(number, place, what),
            DeclFault::OutOfMemory => CompileFault::OutOfMemory,
        }
    }
}

impl From<AllocError> for DeclFault {
    ghost use Rattle.std.specs.Prelude.{◌≡◌};
    ghost use Rattle.acfg_decls.specs.declared.faults.DeclFault.TheVariants.{OutOfMemory};

    ghost from_gives = { λ _ fault. fault ≡ OutOfMemory };

    fn from(_refusal: AllocError) -> DeclFault {
        DeclFault::OutOfMemory
    }
}

impl<T: Drop> From<AllocFailed<T>> for DeclFault {
    ghost use Rattle.std.specs.Prelude.{◌≡◌};
    ghost use Rattle.acfg_decls.specs.declared.faults.DeclFault.TheVariants.{OutOfMemory};

    ghost from_gives = { λ _ fault. fault ≡ OutOfMemory };

    fn from(_refusal: AllocFailed<T>) -> DeclFault {
        DeclFault::OutOfMemory
    }
}

/// Why flags weren't compiled.
#[derive(Clone, Copy, Debug, PartialEq, Eq)]
pub enum CompileFault {
    /// The position of the file, the declarations first and then the values; the byte place in it; and what is wrong.
    In(usize, usize, DeclWhat),
    /// Memory was refused.
    OutOfMemory,
}

impl From<AllocError> for CompileFault {
    ghost use Rattle.std.specs.Prelude.{◌≡◌};
    ghost use Rattle.acfg_decls.specs.declared.faults.CompileFault.TheVariants.{OutOfMemory};

    ghost from_gives = { λ _ fault. fault ≡ OutOfMemory };

    fn from(_refusal: AllocError) -> CompileFault {
        CompileFault::OutOfMemory
    }
}

impl<T: Drop> From<AllocFailed<T>> for CompileFault {
    ghost use Rattle.std.specs.Prelude.{◌≡◌};
    ghost use Rattle.acfg_decls.specs.declared.faults.CompileFault.TheVariants.{OutOfMemory};

    ghost from_gives = { λ _ fault. fault ≡ OutOfMemory };

    fn from(_refusal: AllocFailed<T>) -> CompileFault {
        CompileFault::OutOfMemory
    }
}

impl From<OutOfMemory> for DeclFault {
    ghost use Rattle.std.specs.Prelude.{◌≡◌};
    ghost use Rattle.acfg_decls.specs.declared.faults.DeclFault.TheVariants as fault;

    ghost from_gives = { λ _ given. given ≡ fault.OutOfMemory };

    fn from(_refusal: OutOfMemory) -> DeclFault {
        DeclFault::OutOfMemory
    }
}

impl From<OutOfMemory> for CompileFault {
    ghost use Rattle.std.specs.Prelude.{◌≡◌};
    ghost use Rattle.acfg_decls.specs.declared.faults.CompileFault.TheVariants as fault;

    ghost from_gives = { λ _ given. given ≡ fault.OutOfMemory };

    fn from(_refusal: OutOfMemory) -> CompileFault {
        CompileFault::OutOfMemory
    }
}

impl From<TextFault> for DeclFault {
    ghost use Rattle.std.specs.Prelude.{◌≡◌};
    ghost use Rattle.acfg_decls.specs.Reading.{fault_of_text};

    ghost from_gives = { λ given fault. fault ≡ fault_of_text given };

    fn from(fault: TextFault) -> DeclFault {
        match fault {
            TextFault::At(place, what) => DeclFault::At(place, DeclWhat::Text(what)),
            TextFault::OutOfMemory => DeclFault::OutOfMemory,
        }
    }
}
