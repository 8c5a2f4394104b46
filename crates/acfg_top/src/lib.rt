//! The program: words and files in, words said and a status out.
#![tactic(auto)]

mod cache_words;
mod caches;
mod create_all;
mod create_cache;
mod create_storage;
mod dump;
mod ending;
mod flags;
mod image_words;
mod inputs;
mod jobs;
mod output;
mod query;
mod rehearsal;
mod replay;
mod told;
mod top;
mod words;

pub use jobs::one_list;
pub use top::{one_outcome, run, some_outcome};
