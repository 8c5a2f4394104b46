//! SipHash, and the bucket numbers and bucket counts of the storage files' maps.
//!
//! Nothing here takes memory: a key that comes in parts is hashed part by part.
#![tactic(auto)]

mod buckets;
mod hasher;
mod siphash;
mod state;
mod word;

pub use buckets::{bucket, flag_bucket, lead, table_size};
pub use siphash::sip;
