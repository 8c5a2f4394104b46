//! The few moves by which files change, over any device: the disk is changed by these functions alone.
//!
//! | You want | Move |
//! |---|---|
//! | a change that is there whole or not at all, of one file or of several | [`commit`] |
//! | one file in the place of another, whole or not at all | [`replace`] |
//! | files that nothing names yet, before a commit names them | [`write_synced`], [`write_files`] |
//! | output files that stay from then on, where a cut in between may leave some of them | [`save_files`] |
//! | bytes in the place of as many, in a file that is there | [`put_synced`] |
//! | a file gone, and gone for good | [`remove_synced`] |
//! | what is read to be on the disk before it is answered, when a store is opened | [`settle`] |
//! | words said | [`say_line`] |
//!
//! Of each move its contract says: the files after `Ok`; that at every exit the other files and the words are
//! as they were, and that the count of faults rose where it failed (`changes`); what a cut of power at any
//! moment of it may leave (`cut`); and whether the device is settled behind it. Where two moves follow each
//! other, the lemmas `Runs` of `acfg_device` join what they say.
#![tactic(auto)]

mod line;
mod several;
mod single;
mod whole;

pub use line::say_line;
pub use several::{NewFile, save_files, write_files};
pub use single::{put_synced, remove_synced, settle, write_synced};
pub use whole::{commit, replace};
