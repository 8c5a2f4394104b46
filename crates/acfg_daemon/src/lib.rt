//! Requests and replies as text, and scripts of requests.
#![tactic(auto)]

mod fault;
mod lines;
mod rehearsal;
mod replaying;
mod replies;
mod requests;
mod sources;

pub use fault::DaemonFault;
pub use lines::{script_of_lines, split_line};
pub use rehearsal::{one_transcript, rehearse, some_transcript};
pub use replaying::{one_replay, replay};
pub use replies::reply_text;
pub use requests::parse_request;
