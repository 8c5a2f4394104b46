//! What is wrong with a cache, as the program says it.

use acfg_cache::CacheFault;
use acfg_wire::WireFault;
use std::fmt;

/// The first fault of a cache, to be printed.
#[derive(Drop)]
pub struct PrintedCache(pub CacheFault);

impl fmt::Display for PrintedCache {
    ghost use Rattle.std.specs.Prelude.{Some};
    ghost use Rattle.acfg_top.specs.Caches.{cache_words};

    ghost output = { λ printed. Some (cache_words printed.0) };

    fn fmt<W: fmt::Write>(&self, f: &mut fmt::Formatter<W>) -> fmt::Result {
        match self.0 {
            CacheFault::Wire(fault) => {
                let fault = PrintedWire(fault);
                write!(f, "{fault}")
            }
            CacheFault::BadText(flag) => write!(f, "bad-text flag {flag}"),
            CacheFault::BadEnum(flag) => write!(f, "bad-enum flag {flag}"),
            CacheFault::Missing(flag) => write!(f, "missing-value flag {flag}"),
            CacheFault::BadName(flag) => write!(f, "bad-name flag {flag}"),
            CacheFault::BadPermission(flag) => write!(f, "bad-permission flag {flag}"),
            CacheFault::Unsorted(flag) => write!(f, "unsorted flag {flag}"),
            CacheFault::Duplicate(flag) => write!(f, "duplicate flag {flag}"),
            CacheFault::OutOfMemory => write!(f, "out-of-memory"),
        }
    }
}

// A fault of the wire format.
#[derive(Drop)]
struct PrintedWire(WireFault);

impl fmt::Display for PrintedWire {
    ghost use Rattle.std.specs.Prelude.{Some};
    ghost use Rattle.acfg_top.specs.Caches.{wire_words};

    ghost output = { λ printed. Some (wire_words printed.0) };

    fn fmt<W: fmt::Write>(&self, f: &mut fmt::Formatter<W>) -> fmt::Result {
        match self.0 {
            WireFault::Truncated(place) => write!(f, "truncated at {place}"),
            WireFault::LongVarint(place) => write!(f, "long-varint at {place}"),
            WireFault::BadType(place) => write!(f, "bad-type at {place}"),
            WireFault::OutOfMemory => write!(f, "out-of-memory"),
        }
    }
}
