//! The cache of compiled flags, both ways, and the merging of several.
//!
//! A cache is AOSP aconfig's `parsed_flags` in the wire format of Protocol Buffers, with this project's numbers. It is
//! written in one way alone, and read as Protocol Buffers readers read it: fields in any order, unknown ones skipped.
#![tactic(auto)]

mod conditions;
mod counting;
mod decoding;
mod encoding;
mod fault;
mod laws;
mod leaves;
mod merging;
mod parts;
mod same;
mod table;

pub use decoding::decode;
pub use encoding::encode;
pub use fault::{CacheFault, MergeFault};
pub use laws::{one_merging, one_reading, written_is_read};
pub use merging::{join, merge};
