//! Why bytes are no fields, and want of memory.

ghost use Rattle.std.specs.Prelude.{◌≡◌};

use std::alloc::{AllocError, AllocFailed};

/// There was no memory for what a call wanted to keep.
#[derive(Clone, Copy, Debug, PartialEq, Eq)]
pub struct OutOfMemory;

impl From<AllocError> for OutOfMemory {
    fn from(_e: AllocError) -> OutOfMemory {
        OutOfMemory
    }
}

/// Why bytes are no fields: what is wrong with the first field at fault, with the place of its key.
///
/// Within a field the key is judged first, then its type and number, then its value.
#[derive(Clone, Copy, Debug, PartialEq, Eq)]
pub enum WireFault {
    /// The bytes end before the field does.
    Truncated(usize),
    /// A varint's tenth byte is over 1: it has more than ten bytes, or more than 64 bits.
    LongVarint(usize),
    /// The type is 3, 4, 6 or 7, or the number is 0.
    BadType(usize),
    /// There was no memory for the list of fields.
    OutOfMemory,
}

impl<T: Drop> From<AllocFailed<T>> for WireFault {
    ghost use Rattle.acfg_wire.specs.declared.fault.WireFault.TheVariants.{OutOfMemory};

    ghost from_gives = { λ _ e. e ≡ OutOfMemory };

    fn from(_e: AllocFailed<T>) -> WireFault {
        WireFault::OutOfMemory
    }
}

impl From<AllocError> for WireFault {
    ghost use Rattle.acfg_wire.specs.declared.fault.WireFault.TheVariants.{OutOfMemory};

    ghost from_gives = { λ _ e. e ≡ OutOfMemory };

    fn from(_e: AllocError) -> WireFault {
        WireFault::OutOfMemory
    }
}

/// What is wrong with one field.
#[derive(Clone, Copy, Debug, PartialEq, Eq)]
pub(crate) enum Fault {
    Truncated,
    LongVarint,
    BadType,
}

impl Fault {
    ghost use Rattle.acfg_wire.specs.Reading.{fault_at};

    /// The fault of a field whose key is at `place`.
    pub(crate) fn at(self, place: usize) -> WireFault
        ensures { result ≡ fault_at self place }
    {
        match self {
            Fault::Truncated => WireFault::Truncated(place),
            Fault::LongVarint => WireFault::LongVarint(place),
            Fault::BadType => WireFault::BadType(place),
        }
    }
}
