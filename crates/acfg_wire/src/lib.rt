//! The wire format of Protocol Buffers: a message's bytes as a list of numbered fields, and back.
//!
//! The format is that of the Protocol Buffers encoding guide, "Message Structure". A field is a
//! varint key, `number * 8 + type`, and its value. Types are 0, a varint; 1, eight bytes; 2, a
//! varint length and so many bytes; and 5, four bytes. Groups, types 3 and 4, are refused.
#![tactic(auto)]

mod fault;
mod field;
mod laws;
mod reading;
mod writing;

pub use fault::{OutOfMemory, WireFault};
pub use field::{Field, FieldValue, MAX_FIELD_NUMBER};
pub use laws::{fields_join, laid_out, one_outcome, put_is_read, shortest_is_least};
pub use reading::read_fields;
pub use writing::{put_bytes, put_varint};
