//! What is read and said.

ghost use Rattle.std.specs.Prelude.{◌≡◌, ℕ, ◌≤◌, ◌++◌, Bool, List, IsTrue, IfOk, OnOk, OnErr};
ghost use Rattle.std.specs.Option.{option_map};
ghost use Rattle.acfg_device.specs.Account.{Account};
ghost use Rattle.acfg_device.specs.Disk.{IsSettled, MayLeave, told};
ghost use Rattle.acfg_device.specs.Outcomes.{MayHaveSaid, Said};
ghost use Rattle.acfg_device.specs.Panel.{Files, Rose, SaysPart};

use std::alloc::{AllocError, AllocFailed, Global};

/// Memory was refused.
#[derive(Clone, Copy, Debug, PartialEq, Eq)]
pub struct OutOfMemory;

impl From<AllocError> for OutOfMemory {
    fn from(_refusal: AllocError) -> OutOfMemory {
        OutOfMemory
    }
}

impl<T: Drop> From<AllocFailed<T>> for OutOfMemory {
    fn from(_refusal: AllocFailed<T>) -> OutOfMemory {
        OutOfMemory
    }
}

/// The outside failed in a call that answers nothing else.
#[derive(Clone, Copy, Debug, PartialEq, Eq)]
pub struct Failed;

/// Why nothing was read.
#[derive(Clone, Copy, Debug, PartialEq, Eq)]
pub enum ReadFault {
    /// The outside failed: a file that is there can't be read, or isn't known to be missing.
    Failed,
    /// Memory for the file's bytes was refused.
    OutOfMemory,
}

/// What is read and said, and how often that failed.
///
/// A panel has named `files`, the words `said` so far and a count of `faults`. What a panel `tells` of its
/// files and words is a promise of its type: one that keeps them in memory tells them, one over the host's
/// files can't, and each clause on them is of a panel that tells.
pub trait Panel {
    /// Whether this type tells its files and the words said.
    ghost tells: { Bool };

    /// The bytes under each name, where there are any.
    ghost files: { Self → Files };

    /// The bytes said so far.
    ghost said: { Self → List ℕ };

    /// What a cut of power may leave of the files and the words, at this moment and at those before.
    ghost account: { Self → Account };

    /// How often the outside failed. It never falls, and stands still at the last number of 64 bits.
    ghost faults: { Self → ℕ };

    /// The bytes of the file with this name, and nothing exactly where there is none. It changes nothing.
    fn read(&mut self, alloc: Global, name: &str) -> Result<Option<Vec<u8>>, ReadFault>
        ensures found { IsTrue tells → IfOk result (λ found. option_map (λ bytes. bytes.items) found
            ≡ files self.old name.now) }
        ensures files { files self.new ≡ files self.old }
        ensures said { said self.new ≡ said self.old }
        ensures account { account self.new ≡ account self.old }
        ensures count { faults self.old ≤ faults self.new }
        ensures failed { result ≡ Err ReadFault.Failed → Rose (faults self.old) (faults self.new) };

    /// Says bytes, all of them with `Ok`. A failure may leave the first few of them said.
    fn say(&mut self, bytes: &[u8]) -> Result<(), Failed>
        ensures ok { IsTrue tells → OnOk result (said self.new ≡ said self.old ++ bytes.now) }
        ensures err { IsTrue tells → OnErr result (SaysPart (said self.old) (said self.new) bytes.now) }
        ensures account_ok { IsTrue tells → OnOk result (Said (account self.old) (account self.new) bytes.now) }
        ensures account_err { IsTrue tells → OnErr result
            (MayHaveSaid (account self.old) (account self.new) bytes.now) }
        ensures files { files self.new ≡ files self.old }
        ensures names { (account self.new).now.names ≡ (account self.old).now.names }
        ensures pending { (account self.new).now.pending ≡ (account self.old).now.pending }
        ensures count { faults self.old ≤ faults self.new }
        ensures failed { OnErr result (Rose (faults self.old) (faults self.new)) };

    /// The files are those of the account's disk.
    ghost files_told: { (panel : Self) → files panel ≡ told (account panel).now };

    /// The words are those of the account's disk.
    ghost said_told: { (panel : Self) → said panel ≡ (account panel).now.said };

    /// What is told now is what a cut now may leave.
    ghost told_now: { (panel : Self) → MayLeave (account panel).now (files panel) (said panel) };

    /// A settled panel leaves what it tells, and nothing else.
    ghost settled_leaves: { (panel : Self) (left : Files) (words : List ℕ) → IsSettled (account panel).now
        → MayLeave (account panel).now left words → (left ≡ files panel) × (words ≡ said panel) };
}
